// The calls that are given an open job.

ghost use Rattle.std.specs.Prelude.{◌≡◌, IfOk, MatchResult, None, Ok};
ghost use Rattle.page_model.specs.Limits.{most_maxval};
ghost use Rattle.job_handles.specs.Opened.{opened};
ghost use Rattle.job_reader.specs.InRange.{IsJob};
ghost use Rattle.job_reader.specs.Jobs.{job_of};
ghost use Rattle.trap_c.specs.declared.error.CallError.TheVariants.{Call};
ghost use Rattle.trap_c.specs.declared.error.CallFault.TheVariants.{Size};
ghost use Rattle.trap_c.specs.Opened.{GivesInfo, IsRefusedJob, MakesOpened, Opens, OpensJob, Shares, SharesJob, SharesOpened, TellsDone, TellsError, TellsInfo, TellsOpenHalo, TrapsOpened, are_sized as are_sized_spec, asked_of};
ghost use Rattle.trap_c.specs.WindowCalls.{MakesWindow};

use crate::answer::{error_of, put_text, trap_window_bytes, trap_window_words};
use crate::error::{CallError, CallFault};
use crate::error_record::ErrorRecord;
use crate::halo::halo_of;
use crate::info::{INFO_SIZE, Info, info_of};
use crate::layout::Layout;
use crate::place::Place;
use crate::report_record::ReportRecord;
use crate::request::Request;
use crate::work::Told;
use common_errors::common::CommonError;
use common_errors::statuses::DONE;
use job_handles::job_handle::JobHandle;
use job_handles::open_job::OpenJob;
use job_reader::job::Job;
use job_reader::reader::read_job;
use lists::names::OutOfMemory;
use ps_tokens::faults::JobError;
use sheet_geometry::copies::{inks_of, zones_of};
use std::alloc::Global;

/// Writes the text of a call that is done, and returns the status.
fn tell_done(report: &[u8], text: &mut [u8], text_len: &mut usize, said: &mut ErrorRecord) -> u8
    ensures { TellsDone report.now text.old text.new text_len.new said.new result }
{
    put_text(report, text, text_len);
    said.say_done()
}

/// Writes the line of an error, says it in numbers too, and returns the status.
fn tell_error(
    error: &CallError,
    text: &mut [u8],
    text_len: &mut usize,
    said: &mut ErrorRecord,
) -> u8
    ensures { TellsError error.now text.old text.new text_len.new said.old said.new result }
{
    put_text(error.line().as_slice(), text, text_len);
    said.say(error)
}

/// Says that a struct of the caller has another size, and returns the status.
fn tell_size(text: &mut [u8], text_len: &mut usize, said: &mut ErrorRecord) -> u8
    ensures { TellsError (Call Size) text.old text.new text_len.new said.old said.new result }
{
    tell_error(&CallError::Call(CallFault::Size), text, text_len, said)
}

fn are_sized(report: &ReportRecord, said: &ErrorRecord) -> bool
    ensures { result ≡ are_sized_spec report.now said.now }
{
    report.is_sized() && said.is_sized()
}

/// The job's bytes beside the job that was read of them.
fn with_bytes(alloc: Global, bytes: &[u8], job: Job) -> Result<OpenJob, JobError>
    requires { job_of bytes.now ≡ Ok job }
    ensures { MatchResult result (λ stored. stored.bytes.items ≡ bytes.now)
        (λ why. IsRefusedJob bytes.now why) }
{
    match Vec::from_slice(alloc, bytes) {
        Ok(bytes) => Ok(OpenJob { bytes, job }),
        Err(_) => Err(JobError::OutOfMemory),
    }
}

/// Reads a job, and keeps its bytes.
fn open_job(alloc: Global, bytes: &[u8]) -> Result<OpenJob, JobError>
    ensures { MatchResult result (λ stored. stored.bytes.items ≡ bytes.now)
        (λ why. IsRefusedJob bytes.now why) }
{
    match read_job(alloc, bytes) {
        Ok(job) => with_bytes(alloc, bytes, job),
        Err(JobError::Fault(fault)) => Err(JobError::Fault(fault)),
        Err(JobError::OutOfMemory) => Err(JobError::OutOfMemory),
    }
}

/// Opens a job in a handle that is not open.
fn open_in(alloc: Global, job: &[u8], handle: &mut JobHandle) -> Result<(), CallError>
    requires { opened handle.old ≡ None }
    ensures { Opens job.now (opened handle.old) (opened handle.new) result }
{
    match open_job(alloc, job) {
        Ok(stored) => match Box::new(alloc, stored) {
            Ok(whole) => {
                *handle = JobHandle::of(whole);
                Ok(())
            }
            Err(_) => Err(CallError::Page(CommonError::Memory)),
        },
        Err(why) => Err(error_of(why)),
    }
}

/// Opens a job in a handle, unless it is open.
fn open_closed(alloc: Global, job: &[u8], handle: &mut JobHandle) -> Result<(), CallError>
    ensures { Opens job.now (opened handle.old) (opened handle.new) result }
{
    match handle.take(alloc) {
        Some(stored) => {
            *handle = JobHandle::of(stored);
            Err(CallError::Call(CallFault::Handle))
        }
        None => open_in(alloc, job, handle),
    }
}

/// Opens a job, says how that ended, and returns the status.
pub fn answer_open(
    alloc: Global,
    job: &[u8],
    handle: &mut JobHandle,
    text: &mut [u8],
    text_len: &mut usize,
    said: &mut ErrorRecord,
) -> u8
    ensures { OpensJob job.now (opened handle.old) (opened handle.new) text.old text.new
        text_len.new result said.old said.new }
{
    if !said.is_sized() {
        return tell_size(text, text_len, said);
    }
    match open_closed(alloc, job, handle) {
        Ok(()) => tell_done(b"", text, text_len, said),
        Err(error) => tell_error(&error, text, text_len, said),
    }
}

/// Closes a handle, whether it is open or not.
pub fn close(alloc: Global, handle: &mut JobHandle)
    ensures { opened handle.new ≡ None }
{
    drop(handle.take(alloc));
}

/// Works out the halo that windows of an open job need, and returns the status.
pub fn answer_open_halo(alloc: Global, handle: &mut JobHandle, halo: &mut u32) -> u8
    ensures kept { opened handle.new ≡ opened handle.old }
    ensures halo { TellsOpenHalo (opened handle.old) halo.old halo.new result }
{
    match handle.take(alloc) {
        Some(stored) => {
            *halo = halo_of(&stored.job);
            *handle = JobHandle::of(stored);
            DONE
        }
        None => CallError::Call(CallFault::Handle).exit_status(),
    }
}

/// Works out the figures of an open job, if the struct for them has its size.
fn figures_of(alloc: Global, handle: &mut JobHandle, info: &mut Info) -> Result<(), CallError>
    ensures kept { opened handle.new ≡ opened handle.old }
    ensures info { GivesInfo (opened handle.old) info.old info.new result }
{
    if info.size != INFO_SIZE {
        return Err(CallError::Call(CallFault::Size));
    }
    match handle.take(alloc) {
        Some(stored) => {
            *info = info_of(&stored.job);
            *handle = JobHandle::of(stored);
            Ok(())
        }
        None => Err(CallError::Call(CallFault::Handle)),
    }
}

/// Works out the figures of an open job, says how that ended, and returns the status.
pub fn answer_info(
    alloc: Global,
    handle: &mut JobHandle,
    info: &mut Info,
    said: &mut ErrorRecord,
) -> u8
    ensures kept { opened handle.new ≡ opened handle.old }
    ensures info { TellsInfo (opened handle.old) info.old info.new result said.old said.new }
{
    if !said.is_sized() {
        return said.say_size();
    }
    match figures_of(alloc, handle, info) {
        Ok(()) => said.say_done(),
        Err(error) => said.say(&error),
    }
}

/// Traps the core of a window by an open job, for samples of two bytes, and returns the core's part of the report and its counts.
fn window_words(
    alloc: Global,
    stored: &OpenJob,
    names: &[u8],
    layout: Layout,
    place: &Place,
    samples: &mut [u16],
) -> Result<Told, CallError>
    ensures { MakesWindow most_maxval (asked_of stored.now names.now layout) place.now samples.old
        samples.new result }
{
    let request = Request {
        job: stored.bytes.as_slice(),
        names,
        layout,
    };
    let job = Some(&stored.job);
    trap_window_words(alloc, &request, job, place, samples)
}

/// Does what `window_words` does, for samples of one byte.
fn window_bytes(
    alloc: Global,
    stored: &OpenJob,
    names: &[u8],
    layout: Layout,
    place: &Place,
    samples: &mut [u8],
) -> Result<Told, CallError>
    ensures { MakesWindow 255 (asked_of stored.now names.now layout) place.now samples.old
        samples.new result }
{
    let request = Request {
        job: stored.bytes.as_slice(),
        names,
        layout,
    };
    let job = Some(&stored.job);
    trap_window_bytes(alloc, &request, job, place, samples)
}

/// Does what `window_words` does, by a handle that may not be open.
fn opened_words(
    alloc: Global,
    handle: &mut JobHandle,
    names: &[u8],
    layout: Layout,
    place: &Place,
    samples: &mut [u16],
) -> Result<Told, CallError>
    ensures kept { opened handle.new ≡ opened handle.old }
    ensures makes { MakesOpened most_maxval (opened handle.old) names.now layout place.now samples.old
        samples.new result }
{
    match handle.take(alloc) {
        Some(stored) => {
            let told = window_words(alloc, &stored, names, layout, place, samples);
            *handle = JobHandle::of(stored);
            told
        }
        None => Err(CallError::Call(CallFault::Handle)),
    }
}

/// Does what `opened_words` does, for samples of one byte.
fn opened_bytes(
    alloc: Global,
    handle: &mut JobHandle,
    names: &[u8],
    layout: Layout,
    place: &Place,
    samples: &mut [u8],
) -> Result<Told, CallError>
    ensures kept { opened handle.new ≡ opened handle.old }
    ensures makes { MakesOpened 255 (opened handle.old) names.now layout place.now samples.old
        samples.new result }
{
    match handle.take(alloc) {
        Some(stored) => {
            let told = window_bytes(alloc, &stored, names, layout, place, samples);
            *handle = JobHandle::of(stored);
            told
        }
        None => Err(CallError::Call(CallFault::Handle)),
    }
}

/// Carries out a window's call by an open job, over samples of two bytes, says how that ended, and returns the status.
pub fn answer_open_words(
    alloc: Global,
    handle: &mut JobHandle,
    names: &[u8],
    layout: Layout,
    place: &Place,
    samples: &mut [u16],
    text: &mut [u8],
    text_len: &mut usize,
    report: &mut ReportRecord,
    said: &mut ErrorRecord,
) -> u8
    ensures kept { opened handle.new ≡ opened handle.old }
    ensures traps { TrapsOpened most_maxval (opened handle.old) names.now layout place.now
        samples.old samples.new text.old text.new text_len.new result report.old report.new
        said.old said.new }
{
    if !are_sized(report, said) {
        return tell_size(text, text_len, said);
    }
    match opened_words(alloc, handle, names, layout, place, samples) {
        Ok(told) => {
            report.say(&told.counts);
            tell_done(told.report.as_slice(), text, text_len, said)
        }
        Err(error) => tell_error(&error, text, text_len, said),
    }
}

/// Does what `answer_open_words` does, for samples of one byte.
pub fn answer_open_bytes(
    alloc: Global,
    handle: &mut JobHandle,
    names: &[u8],
    layout: Layout,
    place: &Place,
    samples: &mut [u8],
    text: &mut [u8],
    text_len: &mut usize,
    report: &mut ReportRecord,
    said: &mut ErrorRecord,
) -> u8
    ensures kept { opened handle.new ≡ opened handle.old }
    ensures traps { TrapsOpened 255 (opened handle.old) names.now layout place.now
        samples.old samples.new text.old text.new text_len.new result report.old report.new
        said.old said.new }
{
    if !are_sized(report, said) {
        return tell_size(text, text_len, said);
    }
    match opened_bytes(alloc, handle, names, layout, place, samples) {
        Ok(told) => {
            report.say(&told.counts);
            tell_done(told.report.as_slice(), text, text_len, said)
        }
        Err(error) => tell_error(&error, text, text_len, said),
    }
}

/// A copy of a job.
fn copy_of(alloc: Global, job: &Job) -> Result<Job, OutOfMemory>
    requires { IsJob job.now }
    ensures { IfOk result (λ copy. copy ≡ job.now) }
{
    let zones = zones_of(alloc, job.zones.as_slice(), 0, 0)?;
    let details = inks_of(alloc, job.details.as_slice())?;
    Ok(Job {
        resolution: job.resolution,
        zones,
        details,
    })
}

/// A copy of an open job. The bytes are not read again.
fn copied(alloc: Global, stored: &OpenJob) -> Result<Box<OpenJob>, OutOfMemory>
    ensures { IfOk result (λ copy. copy.value.bytes.items ≡ stored.now.bytes.items) }
{
    let job = copy_of(alloc, &stored.job)?;
    match with_bytes(alloc, stored.bytes.as_slice(), job) {
        Ok(copy) => match Box::new(alloc, copy) {
            Ok(whole) => Ok(whole),
            Err(_) => Err(OutOfMemory),
        },
        Err(_) => Err(OutOfMemory),
    }
}

/// Opens the same job in a handle that is not open.
fn share_in(alloc: Global, stored: &OpenJob, other: &mut JobHandle) -> Result<(), CallError>
    requires { opened other.old ≡ None }
    ensures { Shares stored.now (opened other.old) (opened other.new) result }
{
    match copied(alloc, stored) {
        Ok(copy) => {
            *other = JobHandle::of(copy);
            Ok(())
        }
        Err(OutOfMemory) => Err(CallError::Page(CommonError::Memory)),
    }
}

/// Opens the same job in another handle, unless that is open.
fn share_closed(alloc: Global, stored: &OpenJob, other: &mut JobHandle) -> Result<(), CallError>
    ensures { Shares stored.now (opened other.old) (opened other.new) result }
{
    match other.take(alloc) {
        Some(there) => {
            *other = JobHandle::of(there);
            Err(CallError::Call(CallFault::Handle))
        }
        None => share_in(alloc, stored, other),
    }
}

/// Opens the job of a handle, if that is open, in another.
fn share_opened(
    alloc: Global,
    handle: &mut JobHandle,
    other: &mut JobHandle,
) -> Result<(), CallError>
    ensures kept { opened handle.new ≡ opened handle.old }
    ensures shares { SharesOpened (opened handle.old) (opened other.old) (opened other.new) result }
{
    match handle.take(alloc) {
        Some(stored) => {
            let done = share_closed(alloc, &stored, other);
            *handle = JobHandle::of(stored);
            done
        }
        None => Err(CallError::Call(CallFault::Handle)),
    }
}

/// Opens the job of a handle in another, says how that ended, and returns the status.
pub fn answer_share(
    alloc: Global,
    handle: &mut JobHandle,
    other: &mut JobHandle,
    said: &mut ErrorRecord,
) -> u8
    ensures kept { opened handle.new ≡ opened handle.old }
    ensures shares { SharesJob (opened handle.old) (opened other.old) (opened other.new) result
        said.old said.new }
{
    if !said.is_sized() {
        return said.say_size();
    }
    match share_opened(alloc, handle, other) {
        Ok(()) => said.say_done(),
        Err(error) => said.say(&error),
    }
}
