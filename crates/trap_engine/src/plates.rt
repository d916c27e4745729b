// The plates of the result, each read out of a table's cells: by a reader of its own, side by side with the others, or
// from the closed table.
ghost use Rattle.std.specs.Prelude.{◌≡◌, ℕ, ◌+◌, ◌*◌, ◌<◌, ◌≤◌, [], length, slice_index_or, vec_capacity, false, true};
ghost use Rattle.band_claims.specs.Seating.{Seats};
ghost use Rattle.band_claims.specs.TableKeys.{IsFit};
ghost use Rattle.band_pieces.specs.Finished.{IsFinished};
ghost use Rattle.lists.specs.Words.{count_below};
ghost use Rattle.page_model.specs.Bands.{pieces_of};
ghost use Rattle.page_model.specs.Counts.{plate_changes};
ghost use Rattle.page_model.specs.Page.{height, maxval, plates, samples, width};
ghost use Rattle.page_tally.specs.Standing.{IsPlateRow, KeepsWorkspace};
ghost use Rattle.page_tally.specs.Tallies.{HasPlates, HasTallies};
ghost use Rattle.trap_engine.specs.Memory.{KeepsWorks};
ghost use Rattle.trap_engine.specs.Taking.{ArePlateWorks, AreSeatedWorks, AreTakenPlates, HasTaken, IsPlateWork, IsTakenPlate};
ghost use Rattle.page_model.specs.Limits.{most_plates};

use band_claims::{Closed, Reader, Shared};
use band_core::layout::Layout;
use band_pieces::{CellSource, are_all_done, read_plate};
use lists::list::List;
use page_model::page::Page;
use page_model::parts::Plane;
use page_tally::{Outcome, differences};
use row_values::tints_of_row;
use std::thread;
use std::thread::Threads;

/// What a plate of the result is read with: a reader of its own, a buffer for a row, and the list of its tints. The
/// list is empty until `done`; then it has the new tints, and `changed` is the number of those that differ from the
/// page's.
#[derive(Drop)]
pub struct PlateWork {
    pub reader: Reader,
    pub row: Vec<u16>,
    pub tints: Vec<u16>,
    pub changed: u64,
    pub done: bool,
}

/// Appends the new tints of plate c in row y to those of the rows above it, and returns how many differ from the
/// page's.
fn add_row(page: &Page, y: u32, c: u32, row: &[u16], tints: &mut Vec<u16>) -> u64
    requires line { y < height page.now }
    requires plate { c < plates page.now }
    requires row { IsPlateRow page.now y c row.now }
    requires tints { HasTaken page.now c (y * width page.now) tints.old.items }
    requires workspace { samples page.now ≤ vec_capacity tints.old }
    ensures tints { HasTaken page.now c ((y + 1) * width page.now) tints.new.items }
    ensures workspace { vec_capacity tints.old ≤ vec_capacity tints.new }
    ensures count { result ≡ count_below (λ x. plate_changes page.now c (record { x = x; y = y }))
        (width page.now) }
    ensures few { result ≤ width page.now }
{
    let Ok(()) = tints.extend_from_slice(row) else {
        unreachable!()
    };
    differences(tints_of_row(page, c, y), row)
}

/// Reads plate c out of the cells of a table whose pieces are done, row by row, and returns how many of its samples
/// change.
fn take_plate<S, C: CellSource<S>>(
    source: &C,
    seat: &mut S,
    page: &Page,
    layout: &Layout,
    c: u32,
    row: &mut [u16],
    tints: &mut Vec<u16>,
) -> u64
    requires page { page.now ≡ (C.table_key source.now seat.old).page.value }
    requires layout { layout.now ≡ (C.table_key source.now seat.old).layout }
    requires fit { IsFit (C.table_key source.now seat.old) }
    requires known { (i : ℕ) → i < pieces_of layout.now.bands → C.knows source.now seat.old i }
    requires plate { c < plates page.now }
    requires row { length row.old ≡ width page.now }
    requires none { tints.old.items ≡ [] }
    requires workspace { samples page.now ≤ vec_capacity tints.old }
    ensures seat { seat.new ≡ seat.old }
    ensures row { length row.new ≡ width page.now }
    ensures taken { IsTakenPlate page.now c tints.new.items result }
{
    let _valid = page.plates();
    let mut changed = 0;
    for y in 0..page.height() {
        read_plate(source, seat, page, layout, y, c, row);
        changed += add_row(page, y, c, row, tints);
    }
    changed
}

/// Reads plate c by its own reader, if it finds all pieces done; else the work stays unchanged.
fn take_by_reader(shared: &Shared, page: &Page, c: u32, work: &mut PlateWork)
    requires page { page.now ≡ shared.now.table_key.page.value }
    requires plate { c < plates page.now }
    requires seat { Seats shared.now work.old.reader }
    requires work { IsPlateWork page.now c work.old }
    ensures work { IsPlateWork page.now c work.new }
    ensures workspace { vec_capacity work.new.row ≡ vec_capacity work.old.row }
{
    if work.done {
        return;
    }
    if !are_all_done(shared, &mut work.reader) {
        return;
    }
    let _fits = shared.bands();
    work.changed = take_plate(
        shared,
        &mut work.reader,
        page,
        shared.layout(),
        c,
        &mut work.row,
        &mut work.tints,
    );
    work.done = true;
}

/// Reads all plates by their own readers, on `threads` threads. A plate whose reader found a piece not done is left
/// out.
pub fn take_by_readers<R: Threads + Sync>(
    rt: &R,
    shared: &Shared,
    page: &Page,
    threads: usize,
    works: &mut [PlateWork],
)
    requires page { page.now ≡ shared.now.table_key.page.value }
    requires some { 1 ≤ threads }
    requires seats { AreSeatedWorks shared.now works.old }
    requires works { ArePlateWorks page.now works.old }
    ensures works { ArePlateWorks page.now works.new }
    ensures workspace { KeepsWorks works.old works.new }
{
    let _few = page.plates();
    thread::for_each_mut(
        rt,
        works,
        threads,
        &|c: usize, work: &mut PlateWork|
            requires page { page.now ≡ shared.now.table_key.page.value }
            requires plate { c < plates page.now }
            requires few { plates page.now ≤ most_plates }
            requires seat { Seats shared.now work.now.reader }
            requires work { IsPlateWork page.now c work.now }
            ensures work { IsPlateWork page.entry.now c work.exit.now }
            ensures workspace { vec_capacity work.exit.now.row ≡ vec_capacity work.entry.now.row }
        { take_by_reader(shared, page, c as u32, work) },
    );
}

/// Whether all plates were read.
pub fn are_taken(works: &[PlateWork]) -> bool
    ensures all { result ≡ true → (c : ℕ) (d : PlateWork) → c < length works.now
        → (slice_index_or works.now c d).done ≡ true }
    ensures left { result ≡ false → (c : ℕ) × (c < length works.now)
        × ((d : PlateWork) → (slice_index_or works.now c d).done ≡ false) }
{
    works.iter().all(|work| work.done)
}

/// Reads plate c out of the closed table, if it was not read yet.
fn take_left(closed: &Closed, page: &Page, c: u32, work: &mut PlateWork)
    requires finished { IsFinished page.now closed.now }
    requires plate { c < plates page.now }
    requires work { IsPlateWork page.now c work.old }
    ensures taken { IsTakenPlate page.now c work.new.tints.items work.new.changed }
    ensures workspace { vec_capacity work.new.row ≡ vec_capacity work.old.row }
{
    if work.done {
        return;
    }
    let layout = closed.layout();
    work.changed = take_plate(
        closed,
        &mut (),
        page,
        layout,
        c,
        &mut work.row,
        &mut work.tints,
    );
    work.done = true;
}

/// Reads the plates that were not read yet out of the closed table.
pub fn take_those_left(closed: &Closed, page: &Page, works: &mut [PlateWork])
    requires finished { IsFinished page.now closed.now }
    requires works { ArePlateWorks page.now works.old }
    ensures works { AreTakenPlates page.now works.new }
    ensures workspace { KeepsWorks works.old works.new }
{
    for c in 0..page.plates() {
        take_left(closed, page, c, &mut works[c as usize]);
    }
}

/// Moves the plates, which were all read, into the result, with the number of samples of each that change.
pub fn put_works(outcome: &mut Outcome, page: &Page, works: Vec<PlateWork>)
    requires counted { HasTallies page.now 0 outcome.old }
    requires works { AreTakenPlates page.now works.items }
    ensures plates { HasPlates page.now 0 outcome.new }
    ensures workspace { KeepsWorkspace outcome.old outcome.new }
{
    let mut works = works;
    while let Some(work) = works.pop() {
        let plane = plane_of(page, work.tints);
        outcome.put_in(works.len(), plane, work.changed);
    }
}

// The plane of a plate that has these tints.
fn plane_of(page: &Page, tints: Vec<u16>) -> Plane
    ensures wide { result.width ≡ width page.now }
    ensures tall { result.height ≡ height page.now }
    ensures deep { result.maxval ≡ maxval page.now }
    ensures tints { result.tints ≡ tints.items }
{
    Plane {
        width: page.width(),
        height: page.height(),
        maxval: page.maxval(),
        tints: List::from_vec(tints),
    }
}
