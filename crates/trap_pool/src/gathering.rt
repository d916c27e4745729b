ghost use Rattle.std.specs.Prelude.{◌≡◌, ◌+◌, ◌<◌, ◌≤◌, ◌^◌, length};
ghost use Rattle.page_files.specs.Gathering.{Gathers};
ghost use Rattle.trap_pool.specs.Pools.{AnswersLine, InTurn, source_of};
ghost use Rattle.trap_pool.specs.Replies.{accepted_of, most_in_all};
ghost use Rattle.trap_pool.specs.Workspaces.{IsWorkspaceOf};
ghost use Rattle.trap_pool.specs.Taking.{pages_of, waiting_of};

use crate::gathered::Gathered;
use job_list::line::{LineList, ListLine};
use outside::tray::Tray;
use page_files::gather::gather;
use page_model::page::Page;
use std::alloc::Global;

/// The lines of a list, and beside each of them its page, if it waits to be trapped.
#[derive(Drop)]
pub(crate) struct Gathering {
    pub lines: Vec<Gathered>,
    pub pages: Vec<Option<Page>>,
}

// Reads the page of each line in order into `workspace`, which has a place for each. Later pages may be too large together
// with those that were accepted before.
pub(crate) fn gather_lines<T: Tray>(
    alloc: Global,
    tray: &mut T,
    lines: &LineList,
    workspace: Gathering,
) -> Gathering
    requires numbered { length lines.now < 2 ^ 32 }
    requires workspace { IsWorkspaceOf (length lines.now) workspace }
    ensures turn { InTurn 0 0 lines.now (T.state tray.old) (T.state tray.new) result.lines.items }
    ensures pages { result.pages.items ≡ pages_of result.lines.items }
{
    let Gathering {
        lines: mut gathered,
        mut pages,
    } = workspace;
    let mut used = 0u64;
    for number in 0..lines.len() {
        let (line, page) = gather_line(alloc, tray, &lines.as_slice()[number], number as u32, used);
        used += line.accepted_samples();
        let Ok(()) = gathered.push(line) else {
            unreachable!()
        };
        let Ok(()) = pages.push(page) else {
            unreachable!()
        };
    }
    Gathering {
        lines: gathered,
        pages,
    }
}

// The line with what was read for it, and its page, if it waits to be trapped.
fn gather_line<T: Tray>(
    alloc: Global,
    tray: &mut T,
    line: &ListLine,
    number: u32,
    used: u64,
) -> (Gathered, Option<Page>)
    requires { used ≤ most_in_all }
    ensures answer { AnswersLine number used line.now (T.state tray.old) (T.state tray.new)
        result.0 }
    ensures limit { used + accepted_of result.0.page result.0.outcome ≤ most_in_all }
    ensures waits { result.1 ≡ waiting_of result.0 }
{
    let job = line.job();
    match gather(alloc, tray, job, line.names(), line.inputs()) {
        Ok(page) => Gathered::of_page(number, used, page),
        Err(common_error) => (Gathered::of_error(number, common_error), None),
    }
}
