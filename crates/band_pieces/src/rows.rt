// Rows of a phase, read from the pieces of their bands.
ghost use Rattle.std.specs.Prelude.{◌≡◌, ℕ, ◌+◌, ◌*◌, ◌<◌, ◌≤◌, length, slice_index};
ghost use Rattle.band_claims.specs.TableKeys.{IsFit};
ghost use Rattle.band_core.specs.Values.{row_value};
ghost use Rattle.row_values.specs.Rows.{HoldsRows};
ghost use Rattle.page_model.specs.Bands.{band_of_row, piece_of};
ghost use Rattle.band_core.specs.Places.{bits_of, per_row};

use crate::reading::{Run, read_values};
use crate::sources::CellSource;
use band_core::layout::Layout;
use band_core::needs::piece;
use band_core::values::CellValue;
use row_values::Rows;

/// Reads the values of a phase of row k of these rows.
fn read_row<S, C: CellSource<S>, V: CellValue>(
    source: &C,
    seat: &mut S,
    layout: &Layout,
    phase: u32,
    rows: Rows,
    k: u32,
    out: &mut [V],
)
    requires layout { layout.now ≡ (C.table_key source.now seat.old).layout }
    requires fit { IsFit (C.table_key source.now seat.old) }
    requires phase { phase < 4 }
    requires fits { bits_of phase ≤ V.width }
    requires row { k < rows.count }
    requires inside { rows.first + rows.count ≤ layout.now.bands.rows }
    requires known { C.knows source.now seat.old
        (piece_of layout.now.bands phase (band_of_row layout.now.bands (rows.first + k))) }
    requires out { length out.old ≡ rows.count * per_row layout.now phase }
    ensures seat { seat.new ≡ seat.old }
    ensures here { (o : ℕ) → o < per_row layout.now phase
        → slice_index (V.numbers out.new) (k * per_row layout.now phase + o)
        ≡ row_value (C.table_key source.now seat.old).page.value phase (rows.first + k) o }
    ensures kept { (i : ℕ) → i < k * per_row layout.now phase
        → slice_index (V.numbers out.new) i ≡ slice_index (V.numbers out.old) i }
    ensures len { length out.new ≡ length out.old }
{
    let bands = layout.bands();
    let y = rows.first + k;
    let number = piece(bands, phase, y / bands.height);
    let wide = layout.row_values(phase);
    let run = Run {
        piece: number,
        from: y % bands.height * wide,
        place: k as usize * wide as usize,
        count: wide as usize,
    };
    read_values(source, seat, layout, run, out);
}

/// Reads the values of a phase of these rows, row by row. The pieces of their bands are known.
pub(crate) fn read_rows<S, C: CellSource<S>, V: CellValue>(
    source: &C,
    seat: &mut S,
    layout: &Layout,
    phase: u32,
    rows: Rows,
    out: &mut [V],
)
    requires layout { layout.now ≡ (C.table_key source.now seat.old).layout }
    requires fit { IsFit (C.table_key source.now seat.old) }
    requires phase { phase < 4 }
    requires fits { bits_of phase ≤ V.width }
    requires inside { rows.first + rows.count ≤ layout.now.bands.rows }
    requires known { (y : ℕ) → rows.first ≤ y → y < rows.first + rows.count
        → C.knows source.now seat.old
        (piece_of layout.now.bands phase (band_of_row layout.now.bands y)) }
    requires out { length out.old ≡ rows.count * per_row layout.now phase }
    ensures seat { seat.new ≡ seat.old }
    ensures rows { HoldsRows (per_row layout.now phase)
        (row_value (C.table_key source.now seat.old).page.value phase) rows (V.numbers out.new) }
    ensures len { length out.new ≡ length out.old }
{
    for k in 0..rows.count {
        read_row(source, seat, layout, phase, rows, k, out);
    }
}

/// Reads the new tints of one plate in row y. The piece of its band is known.
pub(crate) fn read_plate_row<S, C: CellSource<S>>(
    source: &C,
    seat: &mut S,
    layout: &Layout,
    y: u32,
    plate: u32,
    out: &mut [u16],
)
    requires layout { layout.now ≡ (C.table_key source.now seat.old).layout }
    requires fit { IsFit (C.table_key source.now seat.old) }
    requires row { y < layout.now.bands.rows }
    requires plate { plate < layout.now.plates }
    requires known { C.knows source.now seat.old
        (piece_of layout.now.bands 3 (band_of_row layout.now.bands y)) }
    requires out { length out.old ≡ layout.now.width }
    ensures seat { seat.new ≡ seat.old }
    ensures here { (x : ℕ) → x < layout.now.width → slice_index out.new x
        ≡ row_value (C.table_key source.now seat.old).page.value 3 y
        (plate * layout.now.width + x) }
    ensures len { length out.new ≡ length out.old }
{
    let bands = layout.bands();
    let number = piece(bands, 3, y / bands.height);
    let wide = layout.row_values(3);
    let run = Run {
        piece: number,
        from: y % bands.height * wide + plate * layout.row_values(0),
        place: 0,
        count: out.len(),
    };
    read_values(source, seat, layout, run, out);
}
