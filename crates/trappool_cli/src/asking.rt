ghost use Rattle.std.specs.Prelude.{◌≡◌, ◌≤◌, length};
ghost use Rattle.trappool_cli.specs.Endings.{Refuses, fault_line, fault_status};
ghost use Rattle.trappool_cli.specs.Reading.{MakesReplies};
ghost use Rattle.trappool_cli.specs.Text.{bad_line as bad_line_spec, usage_line};
ghost use Rattle.common_errors.specs.Statuses.{usage};
ghost use Rattle.page_model.specs.Limits.{most_workers};

use crate::lines::{TrappoolError, read_lines};
use crate::words::TrappoolArgs;
use common_errors::common::CommonError;
use common_errors::line::Line;
use common_errors::statuses::{JOB_REFUSED, NOT_READ, USAGE};
use common_errors::telling::{refuse, tell_line};
use job_list::line::LineList;
use lists::names::OutOfMemory;
use outside::rack::Rack;
use outside::tray::Tray;
use std::alloc::Global;
use std::sync::Wait;
use std::thread::Threads;
use trap_pool::TakeGate;
use trap_pool::pool::pool_run;
use trap_pool::reply::ReplyList;

// Reads the list and all pages of its lines, and traps them. Nothing is written.
pub(crate) fn make_replies<H: Threads + Wait + Sync, T: Tray, G: TakeGate + Sync>(
    rt: &H,
    alloc: Global,
    asked: TrappoolArgs<'_>,
    tray: &mut T,
    gate: &G,
) -> Result<(LineList, ReplyList), TrappoolError>
    requires some { 1 ≤ asked.workers }
    requires few { asked.workers ≤ most_workers }
    ensures { MakesReplies asked.entry.list.now (T.state tray.old) (T.state tray.new) result }
{
    let lines = read_lines(alloc, tray, asked.list)?;
    match pool_run(rt, alloc, tray, &lines, asked.workers, gate) {
        Ok(replies) => Ok((lines, replies)),
        Err(OutOfMemory) => Err(TrappoolError::Memory),
    }
}

// Prints why nothing was written, and returns its status.
pub(crate) fn refuse_list<R: Rack>(rack: &mut R, fault: TrappoolError) -> u8
    ensures { Refuses (fault_line fault) (fault_status fault) (R.state rack.old)
        (R.state rack.new) result }
{
    match fault {
        TrappoolError::BadLine(number) => {
            tell_line(rack, &Line::of_number(b"list: BadLine ", number));
            JOB_REFUSED
        }
        TrappoolError::NotRead => {
            tell_line(rack, &Line::of_text(b"read fault: list"));
            NOT_READ
        }
        TrappoolError::Memory => refuse(rack, &CommonError::Memory),
    }
}

// Words that mean nothing are refused by this program's own usage line.
pub(crate) fn refuse_words<R: Rack>(rack: &mut R) -> u8
    ensures { Refuses usage_line usage (R.state rack.old) (R.state rack.new) result }
{
    tell_line(rack, &Line::of_text(b"usage: trappool WORKERS LIST"));
    USAGE
}
