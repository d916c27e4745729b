ghost use Rattle.std.specs.Prelude.{◌≡◌, ◌≤◌, MatchResult};
ghost use Rattle.page_model.specs.Counts.{page_counts};
ghost use Rattle.page_model.specs.Limits.{most_workers};
ghost use Rattle.trap_engine.specs.Receipts.{IsWholeReceipt};
ghost use Rattle.trap_report.specs.Report.{report_of};
ghost use Rattle.trap_cli.specs.Stored.{IsSampleWithin, sample_in};
ghost use Rattle.trap_cli.specs.Commands.{sample_band};
ghost use Rattle.trap_cli.specs.Endings.{EndsSample, MakesReport};

use crate::command::SampleArgs;
use crate::ending::{Ended, end_with_error};
use band_claims::Gate;
use common_errors::common::CommonError;
use common_errors::statuses::{DONE, NOT_WRITTEN};
use outside::rack::Rack;
use outside::tray::DeviceError;
use page_model::page::{Page, PageFault};
use page_model::parts::OutOfMemory;
use page_output::outcome::{Outcome, outcome_of};
use page_source::sample::{SampleError, sample_page};
use std::alloc::Global;
use std::thread::Threads;

// The rows of a band in which a sample page is trapped.
const SAMPLE_BAND: u32 = 64;

// Traps a sample page and prints its report, and returns how the command ended.
pub(crate) fn run_sample<H: Threads + Sync, R: Rack, G: Gate + Sync>(
    rt: &H,
    alloc: Global,
    command: SampleArgs,
    rack: &mut R,
    gate: &G,
) -> Ended
    requires { IsSampleWithin command }
    ensures { EndsSample (sample_in command) (R.state rack.old) (R.state rack.new)
        result.status result.receipt }
{
    match sample_outcome(rt, alloc, command, gate) {
        Ok(outcome) => match rack.tell(outcome.report.as_slice()) {
            Ok(()) => Ended {
                status: DONE,
                receipt: Some(outcome.receipt),
            },
            Err(DeviceError) => Ended {
                status: NOT_WRITTEN,
                receipt: None,
            },
        },
        Err(error) => end_with_error(rack, &error),
    }
}

fn sample_outcome<H: Threads + Sync, G: Gate + Sync>(
    rt: &H,
    alloc: Global,
    command: SampleArgs,
    gate: &G,
) -> Result<Outcome, CommonError>
    requires { IsSampleWithin command }
    ensures { MakesReport (sample_in command) result }
{
    match sample_page(alloc, command.number, command.width, command.height) {
        Ok(page) => page_outcome(rt, alloc, &page, command.workers, gate),
        Err(SampleError::TooManySamples) => Err(CommonError::Page(PageFault::TooManySamples)),
        Err(SampleError::OutOfMemory) => Err(CommonError::Memory),
    }
}

// The page after trapping, in the bands of a sample page.
fn page_outcome<H: Threads + Sync, G: Gate + Sync>(
    rt: &H,
    alloc: Global,
    page: &Page,
    workers: u32,
    gate: &G,
) -> Result<Outcome, CommonError>
    requires some_workers { 1 ≤ workers }
    requires few_workers { workers ≤ most_workers }
    ensures { let reported = report_of page.now (page_counts page.now) in
        MatchResult result (λ made. (made.report ≡ reported)
        × IsWholeReceipt page.now sample_band made.receipt)
        (λ error. error ≡ CommonError.Memory) }
{
    match outcome_of(rt, alloc, page, workers, SAMPLE_BAND, gate) {
        Ok(outcome) => Ok(outcome),
        Err(OutOfMemory) => Err(CommonError::Memory),
    }
}
