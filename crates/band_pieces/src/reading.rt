// The values of a piece, unpacked from its cells.
ghost use Rattle.std.specs.Prelude.{◌≡◌, ℕ, ◌+◌, ◌-◌, ◌*◌, ◌<◌, ◌≤◌, length, slice_index};
ghost use Rattle.band_claims.specs.TableKeys.{IsFit};
ghost use Rattle.band_core.specs.Values.{value};
ghost use Rattle.page_model.specs.Bands.{phase_of, pieces_of};
ghost use Rattle.band_core.specs.Packing.{IsBits, lane, lanes as lanes_for};
ghost use Rattle.band_core.specs.Places.{bits_of, first_cell_of, lanes_of, value_total};

use crate::sources::CellSource;
use band_core::layout::{Layout, bits, lanes};
use band_core::packing::{unpack, without_lanes};
use band_core::values::CellValue;

/// Some values of a piece, from a number on, and the place that they are written to.
#[derive(Clone, Copy, Drop)]
pub(crate) struct Run {
    pub piece: u32,
    pub from: u32,
    pub place: usize,
    pub count: usize,
}

/// Some full cells of a piece, from a cell on, and the place that their values are written to.
#[derive(Clone, Copy, Drop)]
struct Cells {
    piece: u32,
    cell: u32,
    count: u32,
    place: usize,
}

/// Some values of a cell of a piece, from a lane on. The number of the piece's first cell and the bits of its values
/// are worked out once for all its cells.
#[derive(Clone, Copy, Drop)]
struct Part {
    piece: u32,
    first: u32,
    bits: u32,
    cell: u32,
    lane: u32,
    place: usize,
    count: usize,
}

/// Unpacks the first values of a cell to a place.
#[inline(always)]
fn unpack_at<V: CellValue>(bits: u32, word: u64, place: usize, count: usize, out: &mut [V])
    requires bits { IsBits bits }
    requires fits { bits ≤ V.width }
    requires some { 1 ≤ word }
    requires few { count ≤ lanes_for bits }
    requires out { place + count ≤ length out.old }
    ensures here { (j : ℕ) → j < count
        → slice_index (V.numbers out.new) (place + j) ≡ lane bits (word - 1) j }
    ensures kept { (k : ℕ) → k < place
        → slice_index (V.numbers out.new) k ≡ slice_index (V.numbers out.old) k }
    ensures len { length out.new ≡ length out.old }
{
    unpack(bits, word, &mut out[place..place + count]);
}

/// Unpacks values from one cell.
#[inline(always)]
fn read_part<S, C: CellSource<S>, V: CellValue>(
    source: &C,
    seat: &mut S,
    layout: &Layout,
    part: Part,
    out: &mut [V],
)
    requires layout { layout.now ≡ (C.table_key source.now seat.old).layout }
    requires fit { IsFit (C.table_key source.now seat.old) }
    requires piece { part.piece < pieces_of layout.now.bands }
    requires first { part.first ≡ first_cell_of layout.now part.piece }
    requires bits { part.bits ≡ bits_of (phase_of layout.now.bands part.piece) }
    requires fits { part.bits ≤ V.width }
    requires known { C.knows source.now seat.old part.piece }
    requires some { 1 ≤ part.count }
    requires few { part.lane + part.count ≤ lanes_of (phase_of layout.now.bands part.piece) }
    requires inside { part.cell * lanes_of (phase_of layout.now.bands part.piece) + part.lane
        + part.count ≤ value_total layout.now part.piece }
    requires out { part.place + part.count ≤ length out.old }
    ensures seat { seat.new ≡ seat.old }
    ensures here { (j : ℕ) → j < part.count → slice_index (V.numbers out.new) (part.place + j)
        ≡ value (C.table_key source.now seat.old).page.value layout.now part.piece
        (part.cell * lanes_of (phase_of layout.now.bands part.piece) + part.lane + j) }
    ensures kept { (k : ℕ) → k < part.place
        → slice_index (V.numbers out.new) k ≡ slice_index (V.numbers out.old) k }
    ensures len { length out.new ≡ length out.old }
{
    let word = source.word(seat, part.first + part.cell);
    let rest = without_lanes(part.bits, word, part.lane);
    unpack_at(part.bits, rest, part.place, part.count, out);
}

/// Unpacks all values of full cells. Their bits and lanes are constants, known when the program is built.
fn read_cells<S, C: CellSource<S>, V: CellValue, const BITS: u32, const LANES: u32>(
    source: &C,
    seat: &mut S,
    layout: &Layout,
    cells: Cells,
    out: &mut [V],
)
    requires layout { layout.now ≡ (C.table_key source.now seat.old).layout }
    requires fit { IsFit (C.table_key source.now seat.old) }
    requires piece { cells.piece < pieces_of layout.now.bands }
    requires bits { BITS ≡ bits_of (phase_of layout.now.bands cells.piece) }
    requires lanes { LANES ≡ lanes_of (phase_of layout.now.bands cells.piece) }
    requires fits { BITS ≤ V.width }
    requires known { C.knows source.now seat.old cells.piece }
    requires some { 1 ≤ LANES }
    requires inside { (cells.cell + cells.count) * LANES ≤ value_total layout.now cells.piece }
    requires out { cells.place + cells.count * LANES ≤ length out.old }
    ensures seat { seat.new ≡ seat.old }
    ensures here { (j : ℕ) → j < cells.count * LANES
        → slice_index (V.numbers out.new) (cells.place + j)
        ≡ value (C.table_key source.now seat.old).page.value layout.now cells.piece
        (cells.cell * LANES + j) }
    ensures kept { (k : ℕ) → k < cells.place
        → slice_index (V.numbers out.new) k ≡ slice_index (V.numbers out.old) k }
    ensures len { length out.new ≡ length out.old }
{
    let first = layout.first_cell(cells.piece);
    for o in 0..cells.count {
        let part = Part {
            piece: cells.piece,
            first,
            bits: BITS,
            cell: cells.cell + o,
            lane: 0,
            place: cells.place + o as usize * LANES as usize,
            count: LANES as usize,
        };
        read_part(source, seat, layout, part, out);
    }
}

/// Does the same for any phase.
fn read_whole<S, C: CellSource<S>, V: CellValue>(
    source: &C,
    seat: &mut S,
    layout: &Layout,
    phase: u32,
    cells: Cells,
    out: &mut [V],
)
    requires layout { layout.now ≡ (C.table_key source.now seat.old).layout }
    requires fit { IsFit (C.table_key source.now seat.old) }
    requires piece { cells.piece < pieces_of layout.now.bands }
    requires phase { phase ≡ phase_of layout.now.bands cells.piece }
    requires fits { bits_of phase ≤ V.width }
    requires known { C.knows source.now seat.old cells.piece }
    requires inside { (cells.cell + cells.count) * lanes_of phase
        ≤ value_total layout.now cells.piece }
    requires out { cells.place + cells.count * lanes_of phase ≤ length out.old }
    ensures seat { seat.new ≡ seat.old }
    ensures here { (j : ℕ) → j < cells.count * lanes_of phase
        → slice_index (V.numbers out.new) (cells.place + j)
        ≡ value (C.table_key source.now seat.old).page.value layout.now cells.piece
        (cells.cell * lanes_of phase + j) }
    ensures kept { (k : ℕ) → k < cells.place
        → slice_index (V.numbers out.new) k ≡ slice_index (V.numbers out.old) k }
    ensures len { length out.new ≡ length out.old }
{
    match phase {
        0 => read_cells::<S, C, V, 8, 7>(source, seat, layout, cells, out),
        1 => read_cells::<S, C, V, 2, 31>(source, seat, layout, cells, out),
        2 => read_cells::<S, C, V, 10, 6>(source, seat, layout, cells, out),
        _ => read_cells::<S, C, V, 16, 3>(source, seat, layout, cells, out),
    }
}

/// Unpacks the first values of a run, of at least one, and returns how many: those of all its full cells if it begins
/// with a cell, else those of its first cell.
fn read_next<S, C: CellSource<S>, V: CellValue>(
    source: &C,
    seat: &mut S,
    layout: &Layout,
    run: Run,
    out: &mut [V],
) -> usize
    requires layout { layout.now ≡ (C.table_key source.now seat.old).layout }
    requires fit { IsFit (C.table_key source.now seat.old) }
    requires piece { run.piece < pieces_of layout.now.bands }
    requires fits { bits_of (phase_of layout.now.bands run.piece) ≤ V.width }
    requires known { C.knows source.now seat.old run.piece }
    requires some { 1 ≤ run.count }
    requires inside { run.from + run.count ≤ value_total layout.now run.piece }
    requires out { run.place + run.count ≤ length out.old }
    ensures some { 1 ≤ result }
    ensures few { result ≤ run.count }
    ensures seat { seat.new ≡ seat.old }
    ensures here { (j : ℕ) → j < result → slice_index (V.numbers out.new) (run.place + j)
        ≡ value (C.table_key source.now seat.old).page.value layout.now run.piece (run.from + j) }
    ensures kept { (k : ℕ) → k < run.place
        → slice_index (V.numbers out.new) k ≡ slice_index (V.numbers out.old) k }
    ensures len { length out.new ≡ length out.old }
{
    let phase = run.piece / layout.bands().count;
    let lanes = lanes(phase);
    let cell = run.from / lanes;
    let lane = run.from % lanes;
    let whole = run.count / lanes as usize;
    if lane == 0 && whole > 0 {
        let cells = Cells {
            piece: run.piece,
            cell,
            count: whole as u32,
            place: run.place,
        };
        read_whole(source, seat, layout, phase, cells, out);
        return whole * lanes as usize;
    }
    let count = ((lanes - lane) as usize).min(run.count);
    let part = Part {
        piece: run.piece,
        first: layout.first_cell(run.piece),
        bits: bits(phase),
        cell,
        lane,
        place: run.place,
        count,
    };
    read_part(source, seat, layout, part, out);
    count
}

/// Unpacks values of a piece.
pub(crate) fn read_values<S, C: CellSource<S>, V: CellValue>(
    source: &C,
    seat: &mut S,
    layout: &Layout,
    run: Run,
    out: &mut [V],
)
    requires layout { layout.now ≡ (C.table_key source.now seat.old).layout }
    requires fit { IsFit (C.table_key source.now seat.old) }
    requires piece { run.piece < pieces_of layout.now.bands }
    requires fits { bits_of (phase_of layout.now.bands run.piece) ≤ V.width }
    requires known { C.knows source.now seat.old run.piece }
    requires inside { run.from + run.count ≤ value_total layout.now run.piece }
    requires out { run.place + run.count ≤ length out.old }
    ensures seat { seat.new ≡ seat.old }
    ensures here { (j : ℕ) → j < run.count → slice_index (V.numbers out.new) (run.place + j)
        ≡ value (C.table_key source.now seat.old).page.value layout.now run.piece (run.from + j) }
    ensures kept { (k : ℕ) → k < run.place
        → slice_index (V.numbers out.new) k ≡ slice_index (V.numbers out.old) k }
    ensures len { length out.new ≡ length out.old }
{
    let _whole = layout.bands();
    let mut done = 0;
    while done < run.count {
        let rest = Run {
            piece: run.piece,
            from: run.from + done as u32,
            place: run.place + done,
            count: run.count - done,
        };
        done += read_next(source, seat, layout, rest, out);
    }
}
