ghost use Rattle.std.specs.Prelude.{◌≡◌, ◌≤◌, Ok, None, Some};
ghost use Rattle.trap_pool.specs.Pools.{KeepsLimit};
ghost use Rattle.trap_pool.specs.Replies.{IsReading, IsReply, accepted_of, gathered_of, most_in_all, reply_parts};
ghost use Rattle.trap_pool.specs.Taking.{SettlesBy, waiting_of};

use crate::outcome::Outcome;
use crate::reply::Reply;
use crate::traps::Traps;
use common_errors::common::CommonError;
use page_model::page::Page;
use page_model::parts::Name;
use std::marker::Model;
use std::snapshot::Snapshot;

/// A line that the pool works on: its number, the page that was read for it, as contracts see it, and what became of
/// it. A page that waits to be trapped has no outcome yet; it is kept beside the line until a worker's slot takes it.
#[derive(Drop)]
pub(crate) struct Gathered {
    line: u32,
    page: Snapshot<Option<Page>>,
    // How many samples of the list's limit the page takes.
    samples: u64,
    outcome: Option<Outcome>,
    report: Option<Name>,
}

impl Model for Gathered {
    ghost use Rattle.std.specs.Prelude.{◌≡◌};
    ghost use Rattle.trap_pool.specs.Replies.{IsReady, ReplyParts, accepted_of, reply_parts};
    ghost use Rattle.trap_pool.specs.Taking.{IsGathered, outcome_so_far};

    ghost Value = { ReplyParts };

    ghost view = { λ g. reply_parts g.line g.page.value (outcome_so_far g.outcome) };

    ghost invariant = { λ g. IsGathered g.page.value g.outcome
        × IsReady g.page.value (outcome_so_far g.outcome) g.report
        × (g.samples ≡ accepted_of g.page.value (outcome_so_far g.outcome)) };
}

const MOST_IN_ALL: u64 = 320_000_000;

impl Gathered {
    // A line whose page was read, after the accepted pages have `used` samples; and the page, which waits, unless it is
    // too large.
    pub(crate) fn of_page(line: u32, used: u64, page: Page) -> (Gathered, Option<Page>)
        requires { used ≤ most_in_all }
        ensures line { result.0.line ≡ line }
        ensures page { gathered_of result.0.page result.0.outcome ≡ Ok page }
        ensures kind { IsReply result.0.page result.0.outcome }
        ensures limit { KeepsLimit used result.0.page result.0.outcome }
        ensures waits { result.1 ≡ waiting_of result.0 }
    {
        let samples = page.width() as u64 * page.height() as u64 * page.plates() as u64;
        let page = Some(page);
        let seen = Snapshot::of(&page);
        if used + samples > MOST_IN_ALL {
            let gathered = Gathered {
                line,
                page: seen,
                samples: 0,
                outcome: Some(Outcome::TooLarge),
                report: None,
            };
            return (gathered, None);
        }
        let gathered = Gathered {
            line,
            page: seen,
            samples,
            outcome: None,
            report: None,
        };
        (gathered, page)
    }

    // A line whose page was refused.
    pub(crate) fn of_error(line: u32, common_error: CommonError) -> Gathered
        requires { IsReading common_error }
        ensures { result ≡ reply_parts line None (Outcome.Refused common_error) }
    {
        Gathered {
            line,
            page: Snapshot::of(&None),
            samples: 0,
            outcome: Some(Outcome::Refused(common_error)),
            report: None,
        }
    }

    // The samples of the page's plates, where it was accepted.
    pub(crate) fn accepted_samples(&self) -> u64
        ensures { result ≡ accepted_of self.now.page self.now.outcome }
    {
        self.samples
    }

    // Sets the result of the accepted page.
    pub(crate) fn settle(&mut self, traps: Traps)
        requires { SettlesBy self.old traps }
        ensures { self.new ≡ reply_parts self.old.line self.old.page (Outcome.Done traps.trapped) }
    {
        let Traps { trapped, report } = traps;
        self.report = Some(report);
        self.outcome = Some(Outcome::Done(trapped));
    }

    // The reply to the line. A page that still waits is refused as out of memory.
    pub(crate) fn into_reply(self) -> Reply
        ensures { result ≡ self }
    {
        let outcome = self
            .outcome
            .unwrap_or(Outcome::Refused(CommonError::Memory));
        Reply::of_parts(self.line, self.page, outcome, self.report)
    }
}
