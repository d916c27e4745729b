ghost use Rattle.std.specs.Prelude.{◌≡◌, ◌≤◌, ◌<◌, ◌∷◌, length, filter, fold, map, slice_index, IfOk};
ghost use Rattle.ps_tokens.specs.Limits.{longest_job};
ghost use Rattle.ps_tokens.specs.Tokens.{Gives};
ghost use Rattle.job_reader.specs.InRange.{IsJob};
ghost use Rattle.job_reader.specs.Jobs.{job_of};
ghost use Rattle.job_pages.specs.PageText.{blanked, is_left_after, text_in};
ghost use Rattle.job_pages.specs.StatementSpans.{shows};
ghost use Rattle.job_pages.specs.Runs.{HasPage, page_job_of};

use crate::run::{Run, RunError, read_run};
use crate::statement_spans::StatementSpan;
use job_reader::job::Job;
use job_reader::reader::read_job;
use lists::names::OutOfMemory;
use ps_tokens::faults::JobError;
use std::alloc::Global;

/// The job of page k of a job of many pages, counted from 0, or its fault. Parameters, limits, resolution, Trapping and
/// details are in force as the earlier pages left them; paths and zones are not kept. Offsets are those of the whole
/// job.
///
/// The job has more than k pages by `page_count`.
pub fn page_job(alloc: Global, bytes: &[u8], k: u32) -> Result<Job, JobError>
    requires size { length bytes.now ≤ longest_job }
    requires page { HasPage bytes.now k }
    ensures given { Gives result (page_job_of bytes.now k) }
    ensures in_range { IfOk result (λ job. IsJob job) }
{
    match read_run(alloc, bytes) {
        Ok(run) => job_in(alloc, &run, bytes, k),
        Err(RunError::OutOfMemory) => Err(JobError::OutOfMemory),
        Err(_) => unreachable!(),
    }
}

/// Does what `page_job` does, with the statements that `read_run` gave for these bytes.
pub fn job_in(alloc: Global, run: &Run, bytes: &[u8], k: u32) -> Result<Job, JobError>
    requires shown { run.now.shown ≡ filter shows run.now.spans }
    requires page { k < length run.now.shown }
    ensures given { Gives result (job_of (text_in run.now.spans bytes.now k)) }
    ensures in_range { IfOk result (λ job. IsJob job) }
{
    match text_in(alloc, run, bytes, k) {
        Ok(text) => read_job(alloc, text.as_slice()),
        Err(OutOfMemory) => Err(JobError::OutOfMemory),
    }
}

// The text of page k.
fn text_in(alloc: Global, run: &Run, bytes: &[u8], k: u32) -> Result<Vec<u8>, OutOfMemory>
    requires shown { run.now.shown ≡ filter shows run.now.spans }
    requires page { k < length run.now.shown }
    ensures { IfOk result (λ text. text.items ≡ text_in run.now.spans bytes.now k) }
{
    let shown = run.shown.as_slice();
    let start = bound(shown, k as usize);
    let end = bound(shown, k as usize + 1);
    match Vec::from_slice(alloc, &bytes[..end.min(bytes.len())]) {
        Ok(mut text) => {
            blank_earlier(text.as_mut_slice(), run.spans.as_slice(), start);
            Ok(text)
        }
        Err(_) => Err(OutOfMemory),
    }
}

// The bound of that number: where the page before it ends.
#[tactic(auto, using(crate::proofs::Blanks::bound_first, crate::proofs::Blanks::bound_next))]
fn bound(shown: &[StatementSpan], k: usize) -> usize
    requires { k ≤ length shown.now }
    ensures { result ≡ slice_index (0 ∷ map (λ (p : StatementSpan). p.end) shown.now) k }
{
    if k == 0 { 0 } else { shown[k - 1].end }
}

// Puts spaces in the place of the statements before a page that set nothing which stays in force.
fn blank_earlier(text: &mut [u8], spans: &[StatementSpan], start: usize)
    ensures { text.new ≡ fold blanked text.old (filter (is_left_after start) spans.now) }
{
    for span in spans {
        if !span.stays() && span.end <= start {
            blank(text, span);
        }
    }
}

// Puts spaces in a statement's place.
#[tactic(auto, using(crate::proofs::Blanks::blanked_at))]
fn blank(text: &mut [u8], span: &StatementSpan)
    ensures { text.new ≡ blanked text.old span.now }
{
    let from = span.from.min(text.len());
    let end = span.end.max(span.from).min(text.len());
    text[from..end].fill(b' ');
}
