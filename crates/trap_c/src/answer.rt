ghost use Rattle.std.specs.Prelude.{◌≡◌, ◌≢◌, MatchOption};
ghost use Rattle.common_errors.specs.Statuses.{done as done_status};
ghost use Rattle.trap_c.specs.Calls.{Tells, Traps};
ghost use Rattle.trap_c.specs.Requests.{asked};
ghost use Rattle.trap_c.specs.WindowCalls.{MakesWindow, TellsHalo, TrapsWindow, error_of_job};
ghost use Rattle.trap_c.specs.Windows.{IsRead};
ghost use Rattle.trap_c.specs.Errors.{line_of_error, status_of_error};
ghost use Rattle.page_model.specs.Limits.{most_maxval};

use crate::cores::{put_byte_cores, put_word_cores};
use crate::error::CallError;
use crate::halo::halo_of;
use crate::place::{Place, core_of};
use crate::planes::{put_bytes, put_words};
use crate::request::Request;
use crate::source::Source;
use crate::work::{Done, Told, carry_out, carry_out_window};
use common_errors::common::CommonError;
use common_errors::statuses::DONE;
use job_reader::job::Job;
use job_reader::reader::read_job;
use page_model::bounds::MOST_MAXVAL;
use ps_tokens::faults::JobError;
use sheet_geometry::laws::{tile_law, window_law};
use std::alloc::Global;

/// Carries out a call over samples of two bytes, writes the report or the line of the error to the text, and returns
/// the status.
pub fn answer_words(
    alloc: Global,
    request: &Request<'_>,
    samples: &mut [u16],
    text: &mut [u8],
    text_len: &mut usize,
) -> u8
    ensures { Traps most_maxval (asked request.now) samples.old samples.new text.old text.new
        text_len.new result }
{
    match carry_out(alloc, MOST_MAXVAL, request, &Source::Words(samples)) {
        Ok(done) => {
            put_words(&done.planes, request.layout, samples);
            put_text(done.report.as_slice(), text, text_len);
            DONE
        }
        Err(error) => refuse(&error, text, text_len),
    }
}

/// Does what `answer_words` does, for samples of one byte.
pub fn answer_bytes(
    alloc: Global,
    request: &Request<'_>,
    samples: &mut [u8],
    text: &mut [u8],
    text_len: &mut usize,
) -> u8
    ensures { Traps 255 (asked request.now) samples.old samples.new text.old text.new
        text_len.new result }
{
    match carry_out(alloc, 255, request, &Source::Bytes(samples)) {
        Ok(done) => {
            put_bytes(&done.planes, request.layout, samples);
            put_text(done.report.as_slice(), text, text_len);
            DONE
        }
        Err(error) => refuse(&error, text, text_len),
    }
}

/// Traps the core of a window over samples of two bytes, and returns the core's part of the report and its counts. `known` is the job that
/// was read of the request's bytes, if it was.
pub fn trap_window_words(
    alloc: Global,
    request: &Request<'_>,
    known: Option<&Job>,
    place: &Place,
    samples: &mut [u16],
) -> Result<Told, CallError>
    requires { MatchOption known (Unit {0}) (λ job. IsRead request.now.job.now job.now) }
    ensures { MakesWindow most_maxval (asked request.now) place.now samples.old samples.new result }
{
    window_law();
    tile_law();
    match carry_out_window(
        alloc,
        MOST_MAXVAL,
        request,
        known,
        place,
        &Source::Words(samples),
    ) {
        Ok(done) => {
            put_word_cores(&done.planes, request.layout, &core_of(place), samples);
            let Done { report, counts, .. } = done;
            Ok(Told { report, counts })
        }
        Err(error) => Err(error),
    }
}

/// Does what `trap_window_words` does, for samples of one byte.
pub fn trap_window_bytes(
    alloc: Global,
    request: &Request<'_>,
    known: Option<&Job>,
    place: &Place,
    samples: &mut [u8],
) -> Result<Told, CallError>
    requires { MatchOption known (Unit {0}) (λ job. IsRead request.now.job.now job.now) }
    ensures { MakesWindow 255 (asked request.now) place.now samples.old samples.new result }
{
    window_law();
    tile_law();
    match carry_out_window(alloc, 255, request, known, place, &Source::Bytes(samples)) {
        Ok(done) => {
            put_byte_cores(&done.planes, request.layout, &core_of(place), samples);
            let Done { report, counts, .. } = done;
            Ok(Told { report, counts })
        }
        Err(error) => Err(error),
    }
}

/// Carries out a window's call over samples of two bytes, writes the core's part of the report or the line of the
/// error to the text, and returns the status.
pub fn answer_window_words(
    alloc: Global,
    request: &Request<'_>,
    place: &Place,
    samples: &mut [u16],
    text: &mut [u8],
    text_len: &mut usize,
) -> u8
    ensures { TrapsWindow most_maxval (asked request.now) place.now samples.old samples.new text.old
        text.new text_len.new result }
{
    match trap_window_words(alloc, request, None, place, samples) {
        Ok(told) => {
            put_text(told.report.as_slice(), text, text_len);
            DONE
        }
        Err(error) => refuse(&error, text, text_len),
    }
}

/// Does what `answer_window_words` does, for samples of one byte.
pub fn answer_window_bytes(
    alloc: Global,
    request: &Request<'_>,
    place: &Place,
    samples: &mut [u8],
    text: &mut [u8],
    text_len: &mut usize,
) -> u8
    ensures { TrapsWindow 255 (asked request.now) place.now samples.old samples.new text.old
        text.new text_len.new result }
{
    match trap_window_bytes(alloc, request, None, place, samples) {
        Ok(told) => {
            put_text(told.report.as_slice(), text, text_len);
            DONE
        }
        Err(error) => refuse(&error, text, text_len),
    }
}

/// Works out the halo that windows of a job need, and returns the status.
pub fn answer_halo(
    alloc: Global,
    job: &[u8],
    halo: &mut u32,
    text: &mut [u8],
    text_len: &mut usize,
) -> u8
    ensures { TellsHalo job.now halo.old halo.new text.old text.new text_len.new result }
{
    match read_job(alloc, job) {
        Ok(job) => {
            *halo = halo_of(&job);
            put_text(b"", text, text_len);
            DONE
        }
        Err(common_error) => refuse(&error_of(common_error), text, text_len),
    }
}

/// Why a job that is refused stops a call.
pub fn error_of(common_error: JobError) -> CallError
    ensures { result ≡ error_of_job common_error }
{
    match common_error {
        JobError::Fault(fault) => CallError::Page(CommonError::Job(fault)),
        JobError::OutOfMemory => CallError::Page(CommonError::Memory),
    }
}

/// Writes the line of an error to the text, and returns its status.
pub fn refuse(error: &CallError, text: &mut [u8], text_len: &mut usize) -> u8
    ensures text { Tells (line_of_error error.now) text.old text.new text_len.new }
    ensures status { result ≡ status_of_error error.now }
    ensures refused { result ≢ done_status }
{
    put_text(error.line().as_slice(), text, text_len);
    error.exit_status()
}

/// Writes as much of a text as fits to the start of a buffer.
pub fn put_text(bytes: &[u8], text: &mut [u8], text_len: &mut usize)
    ensures { Tells bytes.now text.old text.new text_len.new }
{
    let count = bytes.len().min(text.len());
    text[..count].copy_from_slice(&bytes[..count]);
    *text_len = bytes.len();
}
