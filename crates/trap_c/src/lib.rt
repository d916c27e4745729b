//! The engine as a static library for C: the planes of a page are trapped in place. The header `library/trap.h`
//! declares what is exported here.
#![tactic(auto)]

mod answer;
mod cores;
mod error;
mod error_record;
mod fit;
mod halo;
mod info;
mod layout;
mod names;
mod opened;
mod page;
mod place;
mod planes;
mod report_record;
mod request;
mod shift;
mod source;
mod tally;
mod window;
mod work;

ghost use Rattle.std.specs.Prelude.{◌≡◌, None};
ghost use Rattle.job_handles.specs.Opened.{opened};
ghost use Rattle.trap_c.specs.Calls.{Traps};
ghost use Rattle.trap_c.specs.Opened.{OpensJob, SharesJob, TellsInfo, TellsOpenHalo, TrapsOpened};
ghost use Rattle.trap_c.specs.Requests.{asked_by};
ghost use Rattle.trap_c.specs.WindowCalls.{TellsHalo, TrapsWindow};
ghost use Rattle.page_model.specs.Limits.{most_maxval};

use crate::answer::{
    answer_bytes, answer_halo, answer_window_bytes, answer_window_words, answer_words,
};
use crate::error_record::ErrorRecord;
use crate::info::Info;
use crate::layout::Layout;
use crate::opened::{
    answer_info, answer_open, answer_open_bytes, answer_open_halo, answer_open_words, answer_share,
    close,
};
use crate::place::Place;
use crate::report_record::ReportRecord;
use crate::request::Request;
use job_handles::job_handle::JobHandle;
use std::alloc::Global;

/// Traps the planes of a page in place; they follow one another, each row by row from the top: a tint of 0 is no ink,
/// and one of `maxval` is full ink. From the start of a row to that of the next there are `step` samples; those after a
/// row's end are left unchanged. The rule is that of docs/JOBS.md and of page_model's definitions.
///
/// The names of the plates' colorants are separated by LF. The report, or the line of the error, is written to
/// `text`, as much of it as fits, and its whole length to `text_len`. The status is 0, or that of the error, and a
/// error leaves the planes unchanged: 2 for a fault of the call, 3 of the job, 4 of the page, and 7 if there is too
/// little memory.
#[unsafe(no_mangle)]
pub extern "C" fn trap_planes16(
    alloc: Global,
    job: &[u8],
    names: &[u8],
    samples: &mut [u16],
    width: u32,
    height: u32,
    step: u32,
    maxval: u32,
    text: &mut [u8],
    text_len: &mut usize,
) -> u8
    ensures { Traps most_maxval (asked_by job.now names.now width height step maxval)
        samples.old samples.new text.old text.new text_len.new result }
{
    let layout = Layout {
        width,
        height,
        step,
        maxval,
    };
    let request = Request { job, names, layout };
    answer_words(alloc, &request, samples, text, text_len)
}

/// Does what `trap_planes16` does, for samples of one byte: the maxval is at most 255.
#[unsafe(no_mangle)]
pub extern "C" fn trap_planes8(
    alloc: Global,
    job: &[u8],
    names: &[u8],
    samples: &mut [u8],
    width: u32,
    height: u32,
    step: u32,
    maxval: u32,
    text: &mut [u8],
    text_len: &mut usize,
) -> u8
    ensures { Traps 255 (asked_by job.now names.now width height step maxval)
        samples.old samples.new text.old text.new text_len.new result }
{
    let layout = Layout {
        width,
        height,
        step,
        maxval,
    };
    let request = Request { job, names, layout };
    answer_bytes(alloc, &request, samples, text, text_len)
}

/// Writes the halo of a job to `halo`: how many rows and columns a window needs round its core, on each side that is no
/// border of the sheet. It is half the reach of the job's zones, rounded up to whole samples, and at least one. The
/// text is empty. The status is 0, or that of the error, and an error leaves `halo` unchanged: 3 for a fault of the
/// job, and 7 if there is too little memory.
#[unsafe(no_mangle)]
pub extern "C" fn trap_halo(
    alloc: Global,
    job: &[u8],
    halo: &mut u32,
    text: &mut [u8],
    text_len: &mut usize,
) -> u8
    ensures { TellsHalo job.now halo.old halo.new text.old text.new text_len.new result }
{
    answer_halo(alloc, job, halo, text, text_len)
}

/// Traps the core of a window in place: afterwards it has what the rule gives on the sheet, for every sheet that shows
/// these samples in the window. All other samples are left unchanged, those of the halo too. The arguments are those of
/// `trap_planes16`, with the planes of the window; `place` says where it is on the sheet, and what its core is.
///
/// The text is the core's part of the report: its header has the sheet's sides, and its counts over the cores of a tiling add
/// up to the sheet's. The status and the line of an error are those of `trap_planes16`, with two more: 2 for a place that
/// does not fit, and 4 where a zone has a vertex that is more than a million points from the window's lower left corner.
#[unsafe(no_mangle)]
pub extern "C" fn trap_window16(
    alloc: Global,
    job: &[u8],
    names: &[u8],
    samples: &mut [u16],
    width: u32,
    height: u32,
    step: u32,
    maxval: u32,
    place: &Place,
    text: &mut [u8],
    text_len: &mut usize,
) -> u8
    ensures { TrapsWindow most_maxval (asked_by job.now names.now width height step maxval) place.now
        samples.old samples.new text.old text.new text_len.new result }
{
    let layout = Layout {
        width,
        height,
        step,
        maxval,
    };
    let request = Request { job, names, layout };
    answer_window_words(alloc, &request, place, samples, text, text_len)
}

/// Does what `trap_window16` does, for samples of one byte: the maxval is at most 255.
#[unsafe(no_mangle)]
pub extern "C" fn trap_window8(
    alloc: Global,
    job: &[u8],
    names: &[u8],
    samples: &mut [u8],
    width: u32,
    height: u32,
    step: u32,
    maxval: u32,
    place: &Place,
    text: &mut [u8],
    text_len: &mut usize,
) -> u8
    ensures { TrapsWindow 255 (asked_by job.now names.now width height step maxval) place.now
        samples.old samples.new text.old text.new text_len.new result }
{
    let layout = Layout {
        width,
        height,
        step,
        maxval,
    };
    let request = Request { job, names, layout };
    answer_window_bytes(alloc, &request, place, samples, text, text_len)
}

/// Opens a job: it is read once, for all calls that are given the handle. The handle is all 0 at first, and otherwise as the
/// library left it; one thread at a time uses it. The text is empty, or the line of the error. The status is 0, or that
/// of the error, and an error leaves the handle unchanged: 2 for a handle that is open, 3 for a fault of the job, and 7
/// if there is too little memory.
#[unsafe(no_mangle)]
pub extern "C" fn trap_open(
    alloc: Global,
    job: &[u8],
    handle: &mut JobHandle,
    text: &mut [u8],
    text_len: &mut usize,
    error: &mut ErrorRecord,
) -> u8
    ensures { OpensJob job.now (opened handle.old) (opened handle.new) text.old text.new
        text_len.new result error.old error.new }
{
    answer_open(alloc, job, handle, text, text_len, error)
}

/// Opens the job of a handle in another, which is not open yet, for another thread: it is copied, and not read again. The status
/// is 0, or that of the error, and an error leaves `other` unchanged: 2 for a struct of another size, for a handle that
/// is not open or another that is, and 7 if there is too little memory.
#[unsafe(no_mangle)]
pub extern "C" fn trap_share(
    alloc: Global,
    handle: &mut JobHandle,
    other: &mut JobHandle,
    error: &mut ErrorRecord,
) -> u8
    ensures kept { opened handle.new ≡ opened handle.old }
    ensures shares { SharesJob (opened handle.old) (opened other.old) (opened other.new) result
        error.old error.new }
{
    answer_share(alloc, handle, other, error)
}

/// Closes a handle and frees its memory. One that is not open is left as it is.
#[unsafe(no_mangle)]
pub extern "C" fn trap_close(alloc: Global, handle: &mut JobHandle)
    ensures { opened handle.new ≡ None }
{
    close(alloc, handle)
}

/// Writes the halo of an open job to `halo`. The status is 0; or 2 for a handle that is not open, and `halo` is unchanged.
#[unsafe(no_mangle)]
pub extern "C" fn trap_open_halo(alloc: Global, handle: &mut JobHandle, halo: &mut u32) -> u8
    ensures kept { opened handle.new ≡ opened handle.old }
    ensures halo { TellsOpenHalo (opened handle.old) halo.old halo.new result }
{
    answer_open_halo(alloc, handle, halo)
}

/// Writes the figures of an open job to `info`, whose size the caller has set. The status is 0; or 2 for another size than
/// the struct's, and else for a handle that is not open, and `info` is unchanged.
#[unsafe(no_mangle)]
pub extern "C" fn trap_job_info(
    alloc: Global,
    handle: &mut JobHandle,
    info: &mut Info,
    error: &mut ErrorRecord,
) -> u8
    ensures kept { opened handle.new ≡ opened handle.old }
    ensures info { TellsInfo (opened handle.old) info.old info.new result error.old error.new }
{
    answer_info(alloc, handle, info, error)
}

/// Does what `trap_window16` does with the job's bytes, whatever was done with the handle before. The status and the line are
/// those of `trap_window16`, without those of the job, and before all others 2 for a handle that is not open.
#[unsafe(no_mangle)]
pub extern "C" fn trap_open_window16(
    alloc: Global,
    handle: &mut JobHandle,
    names: &[u8],
    samples: &mut [u16],
    width: u32,
    height: u32,
    step: u32,
    maxval: u32,
    place: &Place,
    text: &mut [u8],
    text_len: &mut usize,
    report: &mut ReportRecord,
    error: &mut ErrorRecord,
) -> u8
    ensures kept { opened handle.new ≡ opened handle.old }
    ensures traps { TrapsOpened most_maxval (opened handle.old) names.now
        (record { width = width; height = height; step = step; maxval = maxval }) place.now
        samples.old samples.new text.old text.new text_len.new result report.old report.new
        error.old error.new }
{
    let layout = Layout {
        width,
        height,
        step,
        maxval,
    };
    answer_open_words(
        alloc, handle, names, layout, place, samples, text, text_len, report, error,
    )
}

/// Does what `trap_open_window16` does, for samples of one byte: the maxval is at most 255.
#[unsafe(no_mangle)]
pub extern "C" fn trap_open_window8(
    alloc: Global,
    handle: &mut JobHandle,
    names: &[u8],
    samples: &mut [u8],
    width: u32,
    height: u32,
    step: u32,
    maxval: u32,
    place: &Place,
    text: &mut [u8],
    text_len: &mut usize,
    report: &mut ReportRecord,
    error: &mut ErrorRecord,
) -> u8
    ensures kept { opened handle.new ≡ opened handle.old }
    ensures traps { TrapsOpened 255 (opened handle.old) names.now
        (record { width = width; height = height; step = step; maxval = maxval }) place.now
        samples.old samples.new text.old text.new text_len.new result report.old report.new
        error.old error.new }
{
    let layout = Layout {
        width,
        height,
        step,
        maxval,
    };
    answer_open_bytes(
        alloc, handle, names, layout, place, samples, text, text_len, report, error,
    )
}

/// The library's version as one number: 10,000 times the first part, plus 100 times the second, plus the third.
#[unsafe(no_mangle)]
pub extern "C" fn trap_version() -> u32
    ensures { result ≡ 900 }
{
    900
}
