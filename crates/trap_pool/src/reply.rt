ghost use Rattle.std.specs.Prelude.{◌≡◌};
ghost use Rattle.trap_pool.specs.Replies.{IsReady, IsReply, reply_parts};

use crate::outcome::Outcome;
use lists::list::List;
use page_model::page::Page;
use page_model::parts::Name;
use std::marker::Model;
use std::snapshot::Snapshot;

/// The reply to a line of a list: the line's number, the page that was read for it, if any, as contracts see it, and
/// what became of it. A page that is done has its own new tints and counts; its report is beside them.
#[derive(Drop)]
pub struct Reply {
    line: u32,
    page: Snapshot<Option<Page>>,
    outcome: Outcome,
    report: Option<Name>,
}

impl Model for Reply {
    ghost use Rattle.trap_pool.specs.Replies.{IsReady, IsReply, ReplyParts, reply_parts};

    ghost Value = { ReplyParts };

    ghost view = { λ r. reply_parts r.line r.page.value r.outcome };

    ghost invariant = { λ r. IsReply r.page.value r.outcome
        × IsReady r.page.value r.outcome r.report };
}

/// The parts of a reply, the page as contracts see it.
#[derive(Drop)]
pub struct ReplyLine {
    pub line: u32,
    pub page: Snapshot<Option<Page>>,
    pub outcome: Outcome,
    pub report: Option<Name>,
}

/// Replies, in the order of the lines.
pub type ReplyList = List<Reply>;

impl Reply {
    /// The line's number, counted from 0.
    pub fn line(&self) -> u32
        ensures { result ≡ self.now.line }
    {
        self.line
    }

    /// What became of the line.
    pub fn outcome(&self) -> &Outcome
        ensures value { result.now ≡ self.now.outcome }
        ensures kind { IsReply self.now.page self.now.outcome }
    {
        &self.outcome
    }

    /// The parts of the reply.
    pub fn into_parts(self) -> ReplyLine
        ensures parts { self ≡ reply_parts result.line result.page.value result.outcome }
        ensures kind { IsReply result.page.value result.outcome }
        ensures ready { IsReady result.page.value result.outcome result.report }
    {
        ReplyLine {
            line: self.line,
            page: self.page,
            outcome: self.outcome,
            report: self.report,
        }
    }

    // The reply of these parts.
    pub(crate) fn of_parts(
        line: u32,
        page: Snapshot<Option<Page>>,
        outcome: Outcome,
        report: Option<Name>,
    ) -> Reply
        requires kind { IsReply page.value outcome }
        requires ready { IsReady page.value outcome report }
        ensures { result ≡ reply_parts line page.value outcome }
    {
        Reply {
            line,
            page,
            outcome,
            report,
        }
    }
}
