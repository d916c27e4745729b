ghost use Rattle.std.specs.Prelude.{◌≡◌, ◌≤◌, length, map};
ghost use Rattle.sheet_files.specs.Steps.{ReadsFirst};

use crate::error::TrapsheetError;
use job_reader::job::Job;
use outside::tray::Tray;
use page_files::job::read_job_file;
use std::alloc::Global;

// Reads the job from the first tray.
pub(crate) fn read_first<T: Tray>(
    alloc: Global,
    trays: &mut [T],
    name: &str,
) -> Result<Job, TrapsheetError>
    requires { 1 ≤ length trays.old }
    ensures { ReadsFirst name.now (map T.state trays.old) (map T.state trays.new) result }
{
    match read_job_file(alloc, &mut trays[0], name) {
        Ok(job) => Ok(job),
        Err(common_error) => Err(TrapsheetError::Common(common_error)),
    }
}
