// The lines that are printed for the jobs of a list.

ghost use Rattle.std.specs.Prelude.{◌≡◌, ◌++◌, codes, decimal, MatchResult};
ghost use Rattle.outside.specs.Rack.{Tells};
ghost use Rattle.trappool_cli.specs.Answers.{TellsPart, TellsWhole};
ghost use Rattle.trappool_cli.specs.Text.{job_line, job_name as name_spec, said_text};

use crate::answering::LineStatus;
use common_errors::line::Line;
use outside::rack::Rack;
use outside::tray::DeviceError;

// Prints what became of a job of the list, or a prefix of it if the rack fails.
pub(crate) fn tell_job<R: Rack>(
    rack: &mut R,
    number: u32,
    said: &LineStatus,
) -> Result<(), DeviceError>
    ensures { MatchResult result
        (λ _. TellsWhole (job_line number said.now) (R.state rack.old) (R.state rack.new))
        (λ _. TellsPart (job_line number said.now) (R.state rack.old) (R.state rack.new)) }
{
    rack.tell(job_name(number).as_slice())?;
    tell_status(rack, said)
}

fn tell_status<R: Rack>(rack: &mut R, said: &LineStatus) -> Result<(), DeviceError>
    ensures { Tells (said_text said.now) (R.state rack.old) (R.state rack.new) result }
{
    match said {
        LineStatus::Done => rack.tell(b"done\n"),
        LineStatus::TooLarge => rack.tell(b"TooLarge\n"),
        LineStatus::Refused(error) => rack.tell(error.line().as_slice()),
    }
}

// The beginning of the line, which names the job.
fn job_name(number: u32) -> Line
    ensures { result ≡ name_spec number }
{
    let mut line = Line::new();
    line.push(b"job ");
    line.push_number(number as u64);
    line.push(b": ");
    line
}
