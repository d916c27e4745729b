ghost use Rattle.std.specs.Prelude.{◌≡◌, ◌≤◌, MatchResult};
ghost use Rattle.page_model.specs.Conditions.{IsPage};
ghost use Rattle.page_files.specs.Gathering.{ReadsPage};
ghost use Rattle.presscheck_cli.specs.Endings.{ChecksPage, EndsCheck, TellsResult};
ghost use Rattle.presscheck_cli.specs.Stored.{check_in, IsWithin};
ghost use Rattle.presscheck_cli.specs.Text.{text_of};
ghost use Rattle.presscheck_cli.specs.Words.{sources_of};
ghost use Rattle.misregister.specs.Limits.{most_radius};

use crate::risks::page_text;
use crate::words::PresscheckArgs;
use common_errors::common::CommonError;
use common_errors::statuses::{DONE, NOT_WRITTEN};
use common_errors::telling::refuse;
use outside::rack::Rack;
use outside::tray::{DeviceError, Tray};
use page_files::gather::gather;
use page_model::page::Page;
use page_model::parts::{Name, OutOfMemory};
use plain_words::files::{input_files, input_names};
use std::alloc::Global;

// Makes a check and prints its result, and returns the status that it ends with.
pub(crate) fn run_check<T: Tray, R: Rack>(
    alloc: Global,
    check: &PresscheckArgs<'_>,
    tray: &mut T,
    rack: &mut R,
) -> u8
    requires { IsWithin check.now }
    ensures { EndsCheck (check_in check.now) (T.state tray.old) (T.state tray.new)
        (R.state rack.old) (R.state rack.new) result }
{
    match check_page(alloc, check, tray) {
        Ok(text) => tell_result(rack, text.as_slice()),
        Err(error) => refuse(rack, &error),
    }
}

fn tell_result<R: Rack>(rack: &mut R, text: &[u8]) -> u8
    ensures { TellsResult text.now (R.state rack.old) (R.state rack.new) result }
{
    match rack.tell(text) {
        Ok(()) => DONE,
        Err(DeviceError) => NOT_WRITTEN,
    }
}

// Reads the page, and returns the text of the result.
fn check_page<T: Tray>(
    alloc: Global,
    check: &PresscheckArgs<'_>,
    tray: &mut T,
) -> Result<Name, CommonError>
    requires { IsWithin check.now }
    ensures { let words = check_in check.now in
        ChecksPage (sources_of words) words.radius (T.state tray.old) (T.state tray.new) result }
{
    match read_page(alloc, check, tray) {
        Ok(page) => text_or_error(alloc, &page, check.radius),
        Err(error) => Err(error),
    }
}

// Reads the page of the check's job and plates.
fn read_page<T: Tray>(
    alloc: Global,
    check: &PresscheckArgs<'_>,
    tray: &mut T,
) -> Result<Page, CommonError>
    requires { IsWithin check.now }
    ensures { ReadsPage (sources_of (check_in check.now)) (T.state tray.old) (T.state tray.new)
        result }
{
    match (
        input_names(alloc, check.plates),
        input_files(alloc, check.plates),
    ) {
        (Ok(names), Ok(inputs)) => gather(alloc, tray, check.job, &names, inputs.as_slice()),
        _ => Err(CommonError::Memory),
    }
}

fn text_or_error(alloc: Global, page: &Page, radius: u32) -> Result<Name, CommonError>
    requires { radius ≤ most_radius }
    ensures valid { IsPage page.now }
    ensures text { let reported = text_of radius page.now in
        MatchResult result (λ text. text ≡ reported) (λ error. error ≡ CommonError.Memory) }
{
    match page_text(alloc, page, radius) {
        Ok(text) => Ok(text),
        Err(OutOfMemory) => Err(CommonError::Memory),
    }
}
