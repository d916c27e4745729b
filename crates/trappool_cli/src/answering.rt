ghost use Rattle.std.specs.Prelude.{◌≡◌, ◌<◌, ◌≤◌, ◌*◌, ◌^◌, length};
ghost use Rattle.std.specs.List.{All};
ghost use Rattle.page_model.specs.Conditions.{IsPlane};
ghost use Rattle.page_model.specs.Counts.{page_counts};
ghost use Rattle.page_model.specs.declared.parts.PageParts.{PageParts};
ghost use Rattle.page_model.specs.Limits.{most_plates, most_samples};
ghost use Rattle.page_model.specs.Tints.{trapped_planes};
ghost use Rattle.trap_report.specs.Report.{report_of};
ghost use Rattle.trappool_cli.specs.Answers.{AllHaveOuts, AnswersAll, AnswersOne, HasOuts, WritesDone, WritesReply};

use crate::telling::tell_job;
use common_errors::common::CommonError;
use common_errors::statuses::{DONE, LINES_REFUSED, NOT_WRITTEN};
use job_list::line::{LineList, ListLine};
use outside::rack::Rack;
use outside::tray::DeviceError;
use page_files::writing::write_page;
use page_model::parts::{Name, PlaneList};
use trap_pool::outcome::Outcome;
use trap_pool::reply::{Reply, ReplyLine, ReplyList};

// What became of a line, as it is printed.
#[derive(Clone, Copy, Debug, Drop, PartialEq, Eq)]
pub(crate) enum LineStatus {
    // Its files are written.
    Done,
    Refused(CommonError),
    TooLarge,
}

// Writes line by line the files of what is done, and prints what became of it. It stops if that can't be printed.
pub(crate) fn answer_all<R: Rack>(rack: &mut R, lines: &LineList, replies: ReplyList) -> u8
    requires numbered { length lines.now < 2 ^ 32 }
    requires outs { AllHaveOuts lines.now replies }
    ensures { AnswersAll 0 0 lines.now replies (R.state rack.old) (R.state rack.new) result }
{
    let mut status = DONE;
    let mut number = 0usize;
    for reply in replies.into_vec() {
        let line = &lines.as_slice()[number];
        match answer_line(rack, number as u32, line, reply) {
            Some(LineStatus::Done) => number += 1,
            Some(_) => {
                status = LINES_REFUSED;
                number += 1;
            }
            None => return NOT_WRITTEN,
        }
    }
    status
}

// Writes the files of a line, and prints what became of it; `None` if that can't be printed.
fn answer_line<R: Rack>(
    rack: &mut R,
    number: u32,
    line: &ListLine,
    reply: Reply,
) -> Option<LineStatus>
    requires { HasOuts line.now reply }
    ensures { AnswersOne number line.now reply (R.state rack.old) (R.state rack.new) result }
{
    let said = write_reply(rack, line, reply);
    match tell_job(rack, number, &said) {
        Ok(()) => Some(said),
        Err(DeviceError) => None,
    }
}

// Writes the files of a line whose page is done, and returns what became of it.
fn write_reply<R: Rack>(rack: &mut R, line: &ListLine, reply: Reply) -> LineStatus
    requires { HasOuts line.now reply }
    ensures { WritesReply line.now reply (R.state rack.old) (R.state rack.new) result }
{
    let ReplyLine {
        line: _,
        page: _,
        outcome,
        report,
    } = reply.into_parts();
    match outcome {
        Outcome::Done(trapped) => match report {
            Some(text) => write_done(rack, line, trapped.planes, &text),
            None => unreachable!(),
        },
        Outcome::Refused(error) => LineStatus::Refused(error),
        Outcome::TooLarge => LineStatus::TooLarge,
    }
}

fn write_done<R: Rack>(rack: &mut R, line: &ListLine, planes: PlaneList, text: &Name) -> LineStatus
    requires few { length planes ≤ most_plates }
    requires outs { length planes ≡ length line.now.outs }
    requires planes { All IsPlane planes }
    requires samples { All (λ plane. plane.width * plane.height ≤ most_samples) planes }
    ensures { (page : PageParts) → planes ≡ trapped_planes page
        → text.now ≡ report_of page (page_counts page)
        → WritesDone line.now page (R.state rack.old) (R.state rack.new) result }
{
    match write_page(rack, line.outs(), planes, line.report(), text.as_slice()) {
        Ok(()) => LineStatus::Done,
        Err(error) => LineStatus::Refused(error),
    }
}
