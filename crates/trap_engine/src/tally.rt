// The counts of rows that are read out of a table's cells, beside the planes that were read out of it.
ghost use Rattle.std.specs.Prelude.{◌≡◌, ℕ, ◌+◌, ◌*◌, ◌<◌, ◌≤◌, IfOk};
ghost use Rattle.band_claims.specs.TableKeys.{IsFit};
ghost use Rattle.page_model.specs.Bands.{pieces_of};
ghost use Rattle.page_model.specs.Page.{height, width};
ghost use Rattle.page_model.specs.Zones.{AreZones};
ghost use Rattle.page_tally.specs.Standing.{AreMarks, AreTrappedTo};
ghost use Rattle.trap_engine.specs.Memory.{KeepsTally};
ghost use Rattle.trap_engine.specs.Taking.{HasCounted};

use band_core::layout::Layout;
use band_pieces::{CellSource, read_marks, read_zones};
use lists::memory::{no_counts, vec_of};
use page_model::page::Page;
use page_model::parts::{OutOfMemory, Plane};
use page_tally::{count_changed, count_zones, edges_in, note_changes};
use row_values::Rows;
use std::alloc::Global;

/// The counts of some rows, with buffers for the zones, the marks and the changes of a row.
#[derive(Drop)]
pub struct Tally {
    pub zones: Vec<u8>,
    pub marks: Vec<u8>,
    pub changes: Vec<bool>,
    pub zone_samples: Vec<u64>,
    pub zone_changed: Vec<u64>,
    pub edges: u64,
}

/// Allocates an empty tally: row buffers, and all counts 0.
pub fn tally_of(alloc: Global, page: &Page) -> Result<Tally, OutOfMemory>
    ensures { IfOk result (λ tally. (first : ℕ) → HasCounted page.now first first tally) }
{
    let width = page.width() as usize;
    let zones = page.zones() as usize;
    Ok(Tally {
        zones: vec_of(alloc, 0u8, width)?,
        marks: vec_of(alloc, 0u8, width)?,
        changes: vec_of(alloc, false, width)?,
        zone_samples: no_counts(alloc, zones)?,
        zone_changed: no_counts(alloc, zones)?,
        edges: 0,
    })
}

/// Adds the counts of row y, whose zones and marks are in the buffers. `first` is the first of the rows that are
/// counted.
fn count_row(page: &Page, planes: &[Plane], first: u32, y: u32, tally: &mut Tally)
    requires planes { AreTrappedTo page.now planes.now (height page.now * width page.now) }
    requires line { y < height page.now }
    requires zones { AreZones page.now y tally.old.zones.items }
    requires marks { AreMarks page.now y tally.old.marks.items }
    requires tally { HasCounted page.now first y tally.old }
    ensures tally { HasCounted page.now first (y + 1) tally.new }
    ensures workspace { KeepsTally tally.old tally.new }
{
    let _valid = page.plates();
    tally.edges += edges_in(&tally.marks);
    count_zones(page, &tally.zones, first, y, &mut tally.zone_samples);
    note_changes(page, planes, y, &mut tally.changes);
    count_changed(
        page,
        &tally.zones,
        first,
        y,
        &tally.changes,
        &mut tally.zone_changed,
    );
}

/// Adds the counts of row y, out of the cells of a table whose pieces are done.
fn take_row<S, C: CellSource<S>>(
    source: &C,
    seat: &mut S,
    page: &Page,
    layout: &Layout,
    planes: &[Plane],
    first: u32,
    y: u32,
    tally: &mut Tally,
)
    requires page { page.now ≡ (C.table_key source.now seat.old).page.value }
    requires layout { layout.now ≡ (C.table_key source.now seat.old).layout }
    requires fit { IsFit (C.table_key source.now seat.old) }
    requires known { (i : ℕ) → i < pieces_of layout.now.bands → C.knows source.now seat.old i }
    requires planes { AreTrappedTo page.now planes.now (height page.now * width page.now) }
    requires line { y < height page.now }
    requires tally { HasCounted page.now first y tally.old }
    ensures seat { seat.new ≡ seat.old }
    ensures tally { HasCounted page.now first (y + 1) tally.new }
    ensures workspace { KeepsTally tally.old tally.new }
{
    let rows = Rows { first: y, count: 1 };
    read_zones(source, seat, page, layout, rows, &mut tally.zones);
    read_marks(source, seat, page, layout, rows, &mut tally.marks);
    count_row(page, planes, first, y, tally);
}

/// Adds the counts of these rows, out of the cells of a table whose pieces are done.
pub fn take_rows<S, C: CellSource<S>>(
    source: &C,
    seat: &mut S,
    page: &Page,
    layout: &Layout,
    planes: &[Plane],
    rows: Rows,
    tally: &mut Tally,
)
    requires page { page.now ≡ (C.table_key source.now seat.old).page.value }
    requires layout { layout.now ≡ (C.table_key source.now seat.old).layout }
    requires fit { IsFit (C.table_key source.now seat.old) }
    requires known { (i : ℕ) → i < pieces_of layout.now.bands → C.knows source.now seat.old i }
    requires planes { AreTrappedTo page.now planes.now (height page.now * width page.now) }
    requires inside { rows.first + rows.count ≤ height page.now }
    requires tally { HasCounted page.now rows.first rows.first tally.old }
    ensures seat { seat.new ≡ seat.old }
    ensures tally { HasCounted page.now rows.first (rows.first + rows.count) tally.new }
    ensures workspace { KeepsTally tally.old tally.new }
{
    for k in 0..rows.count {
        take_row(
            source,
            seat,
            page,
            layout,
            planes,
            rows.first,
            rows.first + k,
            tally,
        );
    }
}
