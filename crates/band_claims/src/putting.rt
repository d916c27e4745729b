ghost use Rattle.std.specs.Prelude.{◌≡◌, ℕ, ◌<◌, ◌≤◌, ◌+◌, ◌^◌, Some, length, slice_index, true};
ghost use Rattle.band_claims.specs.Seating.{Seats};
ghost use Rattle.band_claims.specs.TableKeys.{IsFit, cell, shape_of};
ghost use Rattle.page_model.specs.Bands.{phase_of, pieces_of};
ghost use Rattle.band_core.specs.Places.{cell_total, first_cell_of, value_total};
ghost use Rattle.band_claims.specs.Filled.{AreValues, IsCut, filled_to};

use crate::pass::Pass;
use crate::shared::Shared;
use crate::table_key::TableKey;
use band_core::layout::{bits, lanes};
use band_core::packing::pack;
use band_core::values::CellValue;

/// The number of words that are made before they are stored, at most: a store waits for all that is before it, and
/// packing between two stores would wait too.
const SPAN: usize = 16;

/// Packs the values of the piece that the pass holds into its cells, and stores these.
pub fn put_values<V: CellValue>(shared: &Shared, pass: &mut Pass, piece: u32, values: &[V])
    requires pass { Seats shared.now pass.old }
    requires piece { piece < pieces_of shared.now.table_key.layout.bands }
    requires stored { pass.old.view.stored ≡ Some piece }
    requires none_filled { pass.old.view.filled ≡ 0 }
    requires values { AreValues shared.now.table_key piece (V.numbers values.now) }
    ensures pass { Seats shared.now pass.new }
    ensures filled { pass.new.view
        ≡ filled_to ((shape_of shared.now.table_key).size piece) pass.old.view }
{
    match piece / shared.bands().count {
        0 => put_cells::<V, 0>(shared, pass, piece, values),
        1 => put_cells::<V, 1>(shared, pass, piece, values),
        2 => put_cells::<V, 2>(shared, pass, piece, values),
        _ => put_cells::<V, 3>(shared, pass, piece, values),
    }
}

/// Does the same for a piece of that phase, a constant that is known when the program is built.
fn put_cells<V: CellValue, const PHASE: u32>(
    shared: &Shared,
    pass: &mut Pass,
    piece: u32,
    values: &[V],
)
    requires pass { Seats shared.now pass.old }
    requires piece { piece < pieces_of shared.now.table_key.layout.bands }
    requires phase { PHASE ≡ phase_of shared.now.table_key.layout.bands piece }
    requires stored { pass.old.view.stored ≡ Some piece }
    requires none_filled { pass.old.view.filled ≡ 0 }
    requires values { AreValues shared.now.table_key piece (V.numbers values.now) }
    ensures pass { Seats shared.now pass.new }
    ensures filled { pass.new.view
        ≡ filled_to ((shape_of shared.now.table_key).size piece) pass.old.view }
{
    let cells = shared.layout().cell_count(piece);
    let mut words = [0u64; SPAN];
    let mut done = 0;
    while done < cells {
        let count = (cells - done).min(SPAN as u32);
        let some = &mut words[..count as usize];
        make_words::<V, PHASE>(shared.table_key(), piece, done, values, some);
        put_words(shared, pass, piece, some);
        done += count;
    }
}

/// Stores these words, which are the defined values, in the next cells of the piece that the pass holds.
fn put_words(shared: &Shared, pass: &mut Pass, piece: u32, words: &[u64])
    requires pass { Seats shared.now pass.old }
    requires stored { pass.old.view.stored ≡ Some piece }
    requires inside { pass.old.view.filled + length words.now
        ≤ (shape_of shared.now.table_key).size piece }
    requires words { (k : ℕ) → k < length words.now → slice_index words.now k
        ≡ cell shared.now.table_key ((shape_of shared.now.table_key).start piece
        + (pass.old.view.filled + k)) }
    ensures pass { Seats shared.now pass.new }
    ensures filled { pass.new.view
        ≡ filled_to (pass.old.view.filled + length words.now) pass.old.view }
{
    for k in 0..words.len() {
        shared.put_cell(pass, words[k]);
    }
}

/// Whether all values are 0. All of them are read, without a branch, so that the loop is vectorized.
fn are_zero<V: CellValue>(values: &[V]) -> bool
    ensures { result ≡ true → (k : ℕ) → k < length values.now
        → slice_index (V.numbers values.now) k ≡ 0 }
{
    let mut all = true;
    for k in 0..values.len() {
        all = all & (values[k].to_u64() == 0);
    }
    all
}

/// Sets each word to 1, the word of a cell whose values are all 0.
fn put_ones(words: &mut [u64])
    ensures len { length words.new ≡ length words.old }
    ensures each { (k : ℕ) → k < length words.old → slice_index words.new k ≡ 1 }
{
    words.fill(1);
}

/// The words of cells of a piece of that phase, from cell `first` on. If all their values are 0, none is packed.
fn make_words<V: CellValue, const PHASE: u32>(
    table_key: &TableKey,
    piece: u32,
    first: u32,
    values: &[V],
    words: &mut [u64],
)
    requires fit { IsFit table_key.now }
    requires phase { PHASE ≡ phase_of table_key.now.layout.bands piece }
    requires piece { piece < pieces_of table_key.now.layout.bands }
    requires cells { first + length words.old ≤ cell_total table_key.now.layout piece }
    requires some { 1 ≤ length words.old }
    requires few { length words.old ≤ 16 }
    requires bound { first + length words.old < 2 ^ 32 }
    requires values { AreValues table_key.now piece (V.numbers values.now) }
    ensures words { (k : ℕ) → k < length words.new → slice_index words.new k
        ≡ cell table_key.now (first_cell_of table_key.now.layout piece + (first + k)) }
    ensures len { length words.new ≡ length words.old }
{
    let _layout = &table_key.layout;
    let per_cell = lanes(PHASE);
    let from = (first * per_cell) as usize;
    let to = (from + SPAN * per_cell as usize).min(values.len());
    if are_zero(part_of(values, from, to - from)) {
        put_ones(words);
        return;
    }
    pack_words::<V, PHASE>(table_key, piece, first, values, words);
}

/// Does the same with each cell packed from its values.
fn pack_words<V: CellValue, const PHASE: u32>(
    table_key: &TableKey,
    piece: u32,
    first: u32,
    values: &[V],
    words: &mut [u64],
)
    requires fit { IsFit table_key.now }
    requires phase { PHASE ≡ phase_of table_key.now.layout.bands piece }
    requires piece { piece < pieces_of table_key.now.layout.bands }
    requires cells { first + length words.old ≤ cell_total table_key.now.layout piece }
    requires few { length words.old ≤ 16 }
    requires bound { first + length words.old < 2 ^ 32 }
    requires values { AreValues table_key.now piece (V.numbers values.now) }
    ensures words { (k : ℕ) → k < length words.new → slice_index words.new k
        ≡ cell table_key.now (first_cell_of table_key.now.layout piece + (first + k)) }
    ensures len { length words.new ≡ length words.old }
{
    for k in 0..words.len() {
        words[k] = values_word(table_key, PHASE, piece, first + k as u32, values);
    }
}

// The values of a piece that make one of its cells.
#[derive(Clone, Copy, Drop)]
struct Cut {
    first: usize,
    count: usize,
}

fn cut_of(table_key: &TableKey, phase: u32, piece: u32, o: u32, total: usize) -> Cut
    requires fit { IsFit table_key.now }
    requires phase { phase ≡ phase_of table_key.now.layout.bands piece }
    requires piece { piece < pieces_of table_key.now.layout.bands }
    requires cell { o < cell_total table_key.now.layout piece }
    requires total { total ≡ value_total table_key.now.layout piece }
    ensures { IsCut table_key.now.layout piece o phase result.first result.count }
{
    let _layout = &table_key.layout;
    let per_cell = lanes(phase);
    let first = (o * per_cell) as usize;
    Cut {
        first,
        count: (per_cell as usize).min(total - first),
    }
}

/// The word of cell number `o` of a piece with these values.
pub fn word_of_values<V: CellValue>(table_key: &TableKey, piece: u32, o: u32, values: &[V]) -> u64
    requires fit { IsFit table_key.now }
    requires piece { piece < pieces_of table_key.now.layout.bands }
    requires cell { o < cell_total table_key.now.layout piece }
    requires values { AreValues table_key.now piece (V.numbers values.now) }
    ensures { result ≡ cell table_key.now (first_cell_of table_key.now.layout piece + o) }
{
    let phase = piece / table_key.layout.bands().count;
    values_word(table_key, phase, piece, o, values)
}

// Does the same where the phase of the piece is known: it is worked out once for a piece, not for each cell.
#[inline(always)]
fn values_word<V: CellValue>(
    table_key: &TableKey,
    phase: u32,
    piece: u32,
    o: u32,
    values: &[V],
) -> u64
    requires fit { IsFit table_key.now }
    requires phase { phase ≡ phase_of table_key.now.layout.bands piece }
    requires piece { piece < pieces_of table_key.now.layout.bands }
    requires cell { o < cell_total table_key.now.layout piece }
    requires values { AreValues table_key.now piece (V.numbers values.now) }
    ensures { result ≡ cell table_key.now (first_cell_of table_key.now.layout piece + o) }
{
    let cut = cut_of(table_key, phase, piece, o, values.len());
    pack(bits(phase), part_of(values, cut.first, cut.count))
}

fn part_of<V: CellValue>(values: &[V], first: usize, count: usize) -> &[V]
    requires { first + count ≤ length values.now }
    ensures len { length result.now ≡ count }
    ensures each { (l : ℕ) → l < count
        → slice_index (V.numbers result.now) l ≡ slice_index (V.numbers values.now) (first + l) }
{
    &values[first..first + count]
}
