ghost use Rattle.std.specs.Prelude.{◌≡◌, IfOk};
ghost use Rattle.page_model.specs.Counts.{page_counts};
ghost use Rattle.page_model.specs.Tints.{trapped_planes};

use crate::workspace::PageWorkspace;
use page_model::page::Page;
use page_model::parts::OutOfMemory;
use page_tally::Trapped;
use std::alloc::Global;

/// Traps a page on one thread: the new tints of every plate, and the counts of the whole page. It fails only where
/// memory runs out.
pub fn trap_alone(alloc: Global, page: &Page) -> Result<Trapped, OutOfMemory>
    ensures planes { IfOk result (λ trapped. trapped.planes ≡ trapped_planes page.now) }
    ensures counts { IfOk result (λ trapped. trapped.counts ≡ page_counts page.now) }
{
    let mut workspace = PageWorkspace::new(alloc, page)?;
    workspace.trap_new(page);
    Ok(workspace.outcome.into_trapped(page))
}
