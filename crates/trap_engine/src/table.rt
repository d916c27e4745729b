// The page by workers at the shared table: they make its pieces, and the result is read out of the table's cells.
ghost use Rattle.std.specs.Prelude.{◌≡◌, ◌≤◌, IfNone, IfOk, IfSome};
ghost use Rattle.band_pieces.specs.Finished.{IsFinished};
ghost use Rattle.page_model.specs.Counts.{page_counts};
ghost use Rattle.page_model.specs.Limits.{most_band_height, most_workers};
ghost use Rattle.page_model.specs.Page.{height};
ghost use Rattle.page_model.specs.Tints.{trapped_planes};
ghost use Rattle.page_tally.specs.Standing.{HasRows, KeepsWorkspace};
ghost use Rattle.page_tally.specs.Tallies.{HasPlates, HasTallies};
ghost use Rattle.trap_engine.specs.Memory.{KeepsParts, KeepsWorks};
ghost use Rattle.trap_engine.specs.Parts.{AreParts, AreSeatedParts};
ghost use Rattle.trap_engine.specs.Receipts.{IsWholeReceipt};
ghost use Rattle.trap_engine.specs.Taking.{ArePlateWorks, AreSeatedWorks};

use crate::parts::{Part, add_parts, count_by_readers, count_those_left};
use crate::plates::{PlateWork, are_taken, put_works, take_by_readers, take_those_left};
use crate::workspace::TrapWorkspace;
use band_claims::{Closed, Gate, Shared, work_many};
use band_pieces::finish_table;
use page_model::page::Page;
use page_model::parts::OutOfMemory;
use page_tally::{Outcome, Trapped};
use std::alloc::Global;
use std::thread::Threads;

/// Reads all plates by their own readers, side by side, and then counts the parts by theirs. If some plate was left
/// out, it only returns the plates.
fn take_side_by_side<R: Threads + Sync>(
    rt: &R,
    shared: &Shared,
    page: &Page,
    works: Vec<PlateWork>,
    parts: &mut [Part],
    outcome: &mut Outcome,
) -> Option<Vec<PlateWork>>
    requires page { page.now ≡ shared.now.table_key.page.value }
    requires seats { AreSeatedWorks shared.now works.items }
    requires works { ArePlateWorks page.now works.items }
    requires part_seats { AreSeatedParts shared.now parts.old }
    requires parts { AreParts page.now parts.old }
    requires outcome { HasTallies page.now 0 outcome.old }
    ensures left { IfSome result (λ works. ArePlateWorks page.now works.items
        × HasTallies page.now 0 outcome.new) }
    ensures none { IfNone result (HasPlates page.now 0 outcome.new) }
    ensures parts { AreParts page.now parts.new }
    ensures left_workspace { IfSome result (λ left. KeepsWorks works.items left.items) }
    ensures parts_workspace { KeepsParts parts.old parts.new }
    ensures outcome_workspace { KeepsWorkspace outcome.old outcome.new }
{
    let mut works = works;
    take_by_readers(rt, shared, page, parts.len(), &mut works);
    if !are_taken(&works) {
        return Some(works);
    }
    put_works(outcome, page, works);
    count_by_readers(rt, shared, page, outcome.planes.as_slice(), parts);
    None
}

/// Reads what is left out of the closed table, and returns the result of the whole page.
fn take_rest(
    closed: &Closed,
    page: &Page,
    left: Option<Vec<PlateWork>>,
    parts: &mut [Part],
    outcome: &mut Outcome,
)
    requires finished { IsFinished page.now closed.now }
    requires left { IfSome left (λ works. ArePlateWorks page.now works.items
        × HasTallies page.now 0 outcome.old) }
    requires none { IfNone left (HasPlates page.now 0 outcome.old) }
    requires parts { AreParts page.now parts.old }
    ensures rows { HasRows page.now (height page.now) outcome.new }
    ensures parts_workspace { KeepsParts parts.old parts.new }
    ensures outcome_workspace { KeepsWorkspace outcome.old outcome.new }
{
    if let Some(mut works) = left {
        take_those_left(closed, page, &mut works);
        put_works(outcome, page, works);
    }
    count_those_left(closed, page, outcome.planes.as_slice(), parts);
    add_parts(outcome, page, parts);
}

/// Traps the page that the memory was made for, by the workers that it is for. It allocates nothing, can't fail, and
/// waits only for its own workers. It returns the new tints of every plate and the counts of the whole page, and with
/// them, as a receipt, the closed table that they were read out of.
pub fn trap_in<R: Threads + Sync, G: Gate + Sync>(
    rt: &R,
    workspace: TrapWorkspace,
    page: &Page,
    gate: &G,
) -> (Trapped, Closed)
    requires page { page.now ≡ workspace.page.value }
    ensures planes { result.0.planes ≡ trapped_planes page.now }
    ensures counts { result.0.counts ≡ page_counts page.now }
    ensures receipt { IsWholeReceipt page.now workspace.layout.bands.height result.1 }
    ensures memory { result.1.workspace ≡ workspace.marks }
{
    let TrapWorkspace {
        shared,
        pass,
        mut scratches,
        mut alone_scratch,
        works,
        mut parts,
        mut outcome,
    } = workspace;
    let pass = work_many(rt, &shared, pass, page, &mut scratches, gate);
    let left = if parts.len() > 1 {
        take_side_by_side(rt, &shared, page, works, &mut parts, &mut outcome)
    } else {
        Some(works)
    };
    let closed = finish_table(shared, pass, page, &mut alone_scratch);
    take_rest(&closed, page, left, &mut parts, &mut outcome);
    (outcome.into_trapped(page), closed)
}

/// Traps a page by `workers` workers at a shared table, in bands of `band` rows. It returns the new tints of every
/// plate, the counts of the whole page, and the closed table as a receipt. If there are fewer bands than workers, as
/// many workers as bands are used. All memory is allocated before the first claim, and it fails only where memory runs
/// out.
pub fn trap_page<R: Threads + Sync, G: Gate + Sync>(
    rt: &R,
    alloc: Global,
    page: &Page,
    workers: u32,
    band: u32,
    gate: &G,
) -> Result<(Trapped, Closed), OutOfMemory>
    requires some_workers { 1 ≤ workers }
    requires few_workers { workers ≤ most_workers }
    requires some_rows { 1 ≤ band }
    requires few_rows { band ≤ most_band_height }
    ensures planes { IfOk result (λ done. done.0.planes ≡ trapped_planes page.now) }
    ensures counts { IfOk result (λ done. done.0.counts ≡ page_counts page.now) }
    ensures receipt { IfOk result (λ done. IsWholeReceipt page.now band done.1) }
{
    let workspace = TrapWorkspace::new(alloc, page, workers, band)?;
    Ok(trap_in(rt, workspace, page, gate))
}
