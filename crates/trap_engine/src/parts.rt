// The page's rows in parts, and the counts of each part out of a table's cells: by a reader of its own, side by side
// with the others, or from the closed table.
ghost use Rattle.std.specs.Prelude.{◌≡◌, ℕ, ◌+◌, ◌*◌, ◌/◌, ◌<◌, ◌≤◌, IfOk, None, length};
ghost use Rattle.band_claims.specs.Seating.{Seats};
ghost use Rattle.band_claims.specs.TableKeys.{IsFit};
ghost use Rattle.band_pieces.specs.Finished.{IsFinished};
ghost use Rattle.page_model.specs.Bands.{pieces_of};
ghost use Rattle.page_model.specs.Page.{height, width};
ghost use Rattle.page_tally.specs.Standing.{AreTrappedTo, HasRows, KeepsWorkspace};
ghost use Rattle.page_tally.specs.Tallies.{HasPlates};
ghost use Rattle.trap_engine.specs.Memory.{KeepsParts, KeepsTally};
ghost use Rattle.trap_engine.specs.Parts.{AreCountedParts, AreOfSize, AreParts, AreSeatedParts, IsCounted, IsPart};

use crate::tally::{Tally, take_rows, tally_of};
use band_claims::{Closed, Pass, Reader, Shared};
use band_pieces::are_all_done;
use lists::list::List;
use lists::memory::push;
use page_model::page::Page;
use page_model::parts::{OutOfMemory, Plane};
use page_tally::Outcome;
use row_values::Rows;
use std::alloc::Global;
use std::thread;
use std::thread::Threads;

/// Some rows of the page, with a reader of their own and their counts. The counts are complete if `done`, else all 0.
#[derive(Drop)]
pub struct Part {
    pub rows: Rows,
    pub reader: Reader,
    pub tally: Tally,
    pub done: bool,
}

/// Cuts the page's rows into at most `most` parts, one after the other, with the same number of rows each; the last one
/// has the rest. A reader is split off for each.
pub fn parts_of(
    alloc: Global,
    page: &Page,
    shared: &Shared,
    pass: &mut Pass,
    most: u32,
) -> Result<Vec<Part>, OutOfMemory>
    requires pass { Seats shared.now pass.old }
    requires idle { pass.old.view.stored ≡ None }
    requires some { 1 ≤ most }
    ensures pass { pass.new ≡ pass.old }
    ensures parts { IfOk result (λ parts. AreParts page.now parts.items) }
    ensures few { IfOk result (λ parts. length parts.items ≤ most) }
    ensures size { IfOk result (λ parts. AreOfSize page.now (height page.now / most + 1) parts.items) }
    ensures seats { IfOk result (λ parts. AreSeatedParts shared.now parts.items) }
{
    let height = page.height();
    let size = height / most + 1;
    let mut parts = List::new(alloc);
    let mut first = 0;
    while first < height {
        let count = (height - first).min(size);
        let part = Part {
            rows: Rows { first, count },
            reader: shared.reader(pass),
            tally: tally_of(alloc, page)?,
            done: false,
        };
        push(&mut parts, part)?;
        first += count;
    }
    Ok(parts.into_vec())
}

/// Counts the rows of a part by its own reader, if it finds all pieces done; else the part stays unchanged. The planes
/// have the new tints of the whole page.
fn count_by_reader(shared: &Shared, page: &Page, planes: &[Plane], part: &mut Part)
    requires page { page.now ≡ shared.now.table_key.page.value }
    requires planes { AreTrappedTo page.now planes.now (height page.now * width page.now) }
    requires seat { Seats shared.now part.old.reader }
    requires part { IsPart page.now part.old }
    ensures rows { part.new.rows ≡ part.old.rows }
    ensures part { IsPart page.now part.new }
    ensures workspace { KeepsTally part.old.tally part.new.tally }
{
    if part.done {
        return;
    }
    if !are_all_done(shared, &mut part.reader) {
        return;
    }
    let _fits = shared.bands();
    take_rows(
        shared,
        &mut part.reader,
        page,
        shared.layout(),
        planes,
        part.rows,
        &mut part.tally,
    );
    part.done = true;
}

/// Counts the rows of all parts by their own readers, each in a thread. A part whose reader found a piece not done is
/// left uncounted. The planes have the new tints of the whole page.
pub fn count_by_readers<R: Threads + Sync>(
    rt: &R,
    shared: &Shared,
    page: &Page,
    planes: &[Plane],
    parts: &mut [Part],
)
    requires page { page.now ≡ shared.now.table_key.page.value }
    requires planes { AreTrappedTo page.now planes.now (height page.now * width page.now) }
    requires seats { AreSeatedParts shared.now parts.old }
    requires parts { AreParts page.now parts.old }
    ensures parts { AreParts page.now parts.new }
    ensures workspace { KeepsParts parts.old parts.new }
{
    let threads = parts.len();
    thread::for_each_mut(
        rt,
        parts,
        threads,
        &|_i: usize, part: &mut Part|
            requires page { page.now ≡ shared.now.table_key.page.value }
            requires planes { AreTrappedTo page.now planes.now (height page.now * width page.now) }
            requires seat { Seats shared.now part.now.reader }
            requires part { IsPart page.now part.now }
            ensures rows { part.exit.now.rows ≡ part.entry.now.rows }
            ensures part { IsPart page.entry.now part.exit.now }
            ensures workspace { KeepsTally part.entry.now.tally part.exit.now.tally }
        { count_by_reader(shared, page, planes, part) },
    );
}

/// Counts the rows of a part out of the closed table, if it is not done yet.
fn count_left(closed: &Closed, page: &Page, planes: &[Plane], part: &mut Part)
    requires finished { IsFinished page.now closed.now }
    requires planes { AreTrappedTo page.now planes.now (height page.now * width page.now) }
    requires part { IsPart page.now part.old }
    ensures rows { part.new.rows ≡ part.old.rows }
    ensures part { IsCounted page.now part.new }
    ensures workspace { KeepsTally part.old.tally part.new.tally }
{
    if part.done {
        return;
    }
    let layout = closed.layout();
    take_rows(
        closed,
        &mut (),
        page,
        layout,
        planes,
        part.rows,
        &mut part.tally,
    );
    part.done = true;
}

/// Counts the rows of all parts that are not done yet out of the closed table. The planes have the new tints of the
/// whole page.
pub fn count_those_left(closed: &Closed, page: &Page, planes: &[Plane], parts: &mut [Part])
    requires finished { IsFinished page.now closed.now }
    requires planes { AreTrappedTo page.now planes.now (height page.now * width page.now) }
    requires parts { AreParts page.now parts.old }
    ensures parts { AreCountedParts page.now parts.new }
    ensures workspace { KeepsParts parts.old parts.new }
{
    for i in 0..parts.len() {
        count_left(closed, page, planes, &mut parts[i]);
    }
}

/// Adds the counts of the next part to the result.
fn add_part(outcome: &mut Outcome, page: &Page, part: &Part)
    requires plates { HasPlates page.now part.now.rows.first outcome.old }
    requires part { IsCounted page.now part.now }
    ensures plates { HasPlates page.now (part.now.rows.first + part.now.rows.count) outcome.new }
    ensures workspace { KeepsWorkspace outcome.old outcome.new }
{
    let tally = &part.tally;
    outcome.add(
        page,
        part.rows,
        &tally.zone_samples,
        &tally.zone_changed,
        tally.edges,
    );
}

/// Adds the counts of all parts of the page to the result.
pub fn add_parts(outcome: &mut Outcome, page: &Page, parts: &[Part])
    requires plates { HasPlates page.now 0 outcome.old }
    requires parts { AreCountedParts page.now parts.now }
    ensures rows { HasRows page.now (height page.now) outcome.new }
    ensures workspace { KeepsWorkspace outcome.old outcome.new }
{
    for i in 0..parts.len() {
        add_part(outcome, page, &parts[i]);
    }
}
