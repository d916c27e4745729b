// The values of a page's rows, read from the cells of a table whose pieces are done.
ghost use Rattle.std.specs.Prelude.{◌≡◌, ℕ, ◌+◌, ◌*◌, ◌<◌, ◌≤◌, length, slice_index};
ghost use Rattle.band_claims.specs.TableKeys.{IsFit};
ghost use Rattle.row_values.specs.Rows.{HoldsMarks, HoldsTints, HoldsZones};
ghost use Rattle.page_model.specs.Bands.{pieces_of};
ghost use Rattle.page_model.specs.Page.{height, plates, width};
ghost use Rattle.page_model.specs.Tints.{new};

use crate::rows::{read_plate_row, read_rows};
use crate::sources::CellSource;
use band_core::layout::Layout;
use page_model::page::Page;
use row_values::Rows;

/// Reads the zones of these rows from the cells of their bands.
pub fn read_zones<S, C: CellSource<S>>(
    source: &C,
    seat: &mut S,
    page: &Page,
    layout: &Layout,
    rows: Rows,
    out: &mut [u8],
)
    requires page { page.now ≡ (C.table_key source.now seat.old).page.value }
    requires layout { layout.now ≡ (C.table_key source.now seat.old).layout }
    requires fit { IsFit (C.table_key source.now seat.old) }
    requires known { (i : ℕ) → i < pieces_of layout.now.bands → C.knows source.now seat.old i }
    requires inside { rows.first + rows.count ≤ height page.now }
    requires out { length out.old ≡ rows.count * width page.now }
    ensures seat { seat.new ≡ seat.old }
    ensures zones { HoldsZones page.now rows out.new }
    ensures len { length out.new ≡ length out.old }
{
    read_rows(source, seat, layout, 0, rows, out);
}

/// Reads the marks of these rows from the cells of their bands.
pub fn read_marks<S, C: CellSource<S>>(
    source: &C,
    seat: &mut S,
    page: &Page,
    layout: &Layout,
    rows: Rows,
    out: &mut [u8],
)
    requires page { page.now ≡ (C.table_key source.now seat.old).page.value }
    requires layout { layout.now ≡ (C.table_key source.now seat.old).layout }
    requires fit { IsFit (C.table_key source.now seat.old) }
    requires known { (i : ℕ) → i < pieces_of layout.now.bands → C.knows source.now seat.old i }
    requires inside { rows.first + rows.count ≤ height page.now }
    requires out { length out.old ≡ rows.count * width page.now }
    ensures seat { seat.new ≡ seat.old }
    ensures marks { HoldsMarks page.now rows out.new }
    ensures len { length out.new ≡ length out.old }
{
    read_rows(source, seat, layout, 1, rows, out);
}

/// Reads the new tints of these rows, in each row plate after plate, from the cells of their bands.
pub fn read_tints<S, C: CellSource<S>>(
    source: &C,
    seat: &mut S,
    page: &Page,
    layout: &Layout,
    rows: Rows,
    out: &mut [u16],
)
    requires page { page.now ≡ (C.table_key source.now seat.old).page.value }
    requires layout { layout.now ≡ (C.table_key source.now seat.old).layout }
    requires fit { IsFit (C.table_key source.now seat.old) }
    requires known { (i : ℕ) → i < pieces_of layout.now.bands → C.knows source.now seat.old i }
    requires inside { rows.first + rows.count ≤ height page.now }
    requires out { length out.old ≡ rows.count * (plates page.now * width page.now) }
    ensures seat { seat.new ≡ seat.old }
    ensures tints { HoldsTints page.now rows out.new }
    ensures len { length out.new ≡ length out.old }
{
    read_rows(source, seat, layout, 3, rows, out);
}

/// Reads the new tints of one plate in row y from the cells of its band.
pub fn read_plate<S, C: CellSource<S>>(
    source: &C,
    seat: &mut S,
    page: &Page,
    layout: &Layout,
    y: u32,
    plate: u32,
    out: &mut [u16],
)
    requires page { page.now ≡ (C.table_key source.now seat.old).page.value }
    requires layout { layout.now ≡ (C.table_key source.now seat.old).layout }
    requires fit { IsFit (C.table_key source.now seat.old) }
    requires known { (i : ℕ) → i < pieces_of layout.now.bands → C.knows source.now seat.old i }
    requires row { y < height page.now }
    requires plate { plate < plates page.now }
    requires out { length out.old ≡ width page.now }
    ensures seat { seat.new ≡ seat.old }
    ensures tints { (x : ℕ) → x < width page.now
        → slice_index out.new x ≡ new page.now (record { x = x; y = y }) plate }
    ensures len { length out.new ≡ length out.old }
{
    read_plate_row(source, seat, layout, y, plate, out);
}
