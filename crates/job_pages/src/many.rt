ghost use Rattle.std.specs.Prelude.{◌≡◌, ◌≤◌, length, IfOk, Ok};
ghost use Rattle.ps_tokens.specs.Limits.{longest_job};
ghost use Rattle.ps_tokens.specs.Tokens.{Gives};
ghost use Rattle.job_reader.specs.InRange.{IsJob};
ghost use Rattle.job_pages.specs.Runs.{HasPage, IsManyPages, count_of, page_job_of};

use crate::page::job_in;
use crate::run::{Run, RunError, read_run};
use job_reader::job::Job;
use lists::names::Name;
use ps_tokens::faults::JobError;
use std::alloc::Global;
use std::marker::Model;

/// A job of many pages that was read: its bytes and its statements, so that the jobs of its pages can be read without
/// searching for the statements again. Contracts see it as its bytes.
#[derive(Drop)]
pub struct ManyPages {
    bytes: Name,
    run: Run,
}

impl Model for ManyPages {
    ghost use Rattle.std.specs.Prelude.{List, ℕ, Ok, filter, ◌≡◌};
    ghost use Rattle.job_pages.specs.StatementSpans.{shows};
    ghost use Rattle.job_pages.specs.Runs.{run_of};

    ghost Value = { List ℕ };

    ghost view = { λ m. m.bytes };

    ghost invariant = { λ m. (run_of m.bytes ≡ Ok m.run.spans)
        × (m.run.shown ≡ filter shows m.run.spans) };
}

impl ManyPages {
    /// Reads the statements of a job of at most `ps_tokens::LONGEST_JOB` bytes, with the errors of `page_count`.
    pub fn new(alloc: Global, bytes: Name) -> Result<ManyPages, RunError>
        requires { length bytes ≤ longest_job }
        ensures { IsManyPages bytes result }
    {
        let run = read_run(alloc, bytes.as_slice())?;
        Ok(ManyPages { bytes, run })
    }

    /// How many pages there are.
    pub fn count(&self) -> u32
        ensures { count_of self.now ≡ Ok result }
    {
        self.run.shown.len() as u32
    }

    /// The job of page k, counted from 0, or its fault, as `page_job` gives it.
    pub fn job(&self, alloc: Global, k: u32) -> Result<Job, JobError>
        requires { HasPage self.now k }
        ensures given { Gives result (page_job_of self.now k) }
        ensures in_range { IfOk result (λ job. IsJob job) }
    {
        job_in(alloc, &self.run, self.bytes.as_slice(), k)
    }
}
