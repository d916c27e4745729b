ghost use Rattle.std.specs.Prelude.{◌≡◌, ℕ, ◌+◌, ◌-◌, ◌*◌, ◌^◌, ◌<◌, ◌≤◌, List, All, length, slice_index};
ghost use Rattle.band_core.specs.Packing.{IsBits, lanes, packed, lane};

use crate::values::CellValue;

/// Packs values into a cell: 1 plus the sum of value j times 2^(bits*j). No cell with values is 0, the word of an empty
/// one.
pub fn pack<V: CellValue>(bits: u32, values: &[V]) -> u64
    requires bits { IsBits bits }
    requires few { length values.now ≤ lanes bits }
    requires small { All (λ v. v < 2 ^ bits) (V.numbers values.now) }
    ensures { result ≡ 1 + packed bits (V.numbers values.now) }
{
    match (bits, values.len()) {
        (8, 7) => 1 + join_whole::<V, 8, 7>(values),
        (2, 31) => 1 + join_whole::<V, 2, 31>(values),
        (10, 6) => 1 + join_whole::<V, 10, 6>(values),
        (16, 3) => 1 + join_whole::<V, 16, 3>(values),
        _ => 1 + join_some(bits, values),
    }
}

/// Unpacks the first values of a cell, as many as `out` has places.
pub fn unpack<V: CellValue>(bits: u32, cell: u64, out: &mut [V])
    requires bits { IsBits bits }
    requires fits { bits ≤ V.width }
    requires few { length out.old ≤ lanes bits }
    requires some { 1 ≤ cell }
    ensures { (j : ℕ) → j < length out.new
        → slice_index (V.numbers out.new) j ≡ lane bits (cell - 1) j }
{
    match (bits, out.len()) {
        (8, 7) => cut_whole::<V, 8, 7>(cell - 1, out),
        (2, 31) => cut_whole::<V, 2, 31>(cell - 1, out),
        (10, 6) => cut_whole::<V, 10, 6>(cell - 1, out),
        (16, 3) => cut_whole::<V, 16, 3>(cell - 1, out),
        _ => cut_some(bits, cell - 1, out),
    }
}

/// A cell without its first `skip` values: value `skip` of `cell` is the first value of the result.
pub fn without_lanes(bits: u32, cell: u64, skip: u32) -> u64
    requires bits { IsBits bits }
    requires few { skip ≤ lanes bits }
    requires some { 1 ≤ cell }
    ensures some { 1 ≤ result }
    ensures rest { (j : ℕ) → lane bits (result - 1) j ≡ lane bits (cell - 1) (skip + j) }
{
    1 + ((cell - 1) >> (bits * skip))
}

// The values of a full cell as one number. The shifts are constants, known when the program is built.
fn join_whole<V: CellValue, const BITS: u32, const LANES: usize>(values: &[V]) -> u64
    requires bits { IsBits BITS }
    requires few { LANES ≤ lanes BITS }
    requires whole { length values.now ≡ LANES }
    requires small { All (λ v. v < 2 ^ BITS) (V.numbers values.now) }
    ensures value { result ≡ packed BITS (V.numbers values.now) }
    ensures bound { result < 2 ^ 62 }
{
    let base: u64 = 1 << BITS;
    let mut sum: u64 = 0;
    let mut j = LANES;
    while j > 0 {
        j -= 1;
        sum = sum * base + values[j].to_u64();
    }
    sum
}

// Does the same for a cell that is not full.
fn join_some<V: CellValue>(bits: u32, values: &[V]) -> u64
    requires bits { IsBits bits }
    requires few { length values.now ≤ lanes bits }
    requires small { All (λ v. v < 2 ^ bits) (V.numbers values.now) }
    ensures value { result ≡ packed bits (V.numbers values.now) }
    ensures bound { result < 2 ^ 62 }
{
    let base: u64 = 1 << bits;
    let mut sum: u64 = 0;
    let mut j = values.len();
    while j > 0 {
        j -= 1;
        sum = sum * base + values[j].to_u64();
    }
    sum
}

// Splits the number of a full cell into its values. Most cells are all 0.
fn cut_whole<V: CellValue, const BITS: u32, const LANES: usize>(packed: u64, out: &mut [V])
    requires bits { IsBits BITS }
    requires fits { BITS ≤ V.width }
    requires whole { length out.old ≡ LANES }
    ensures { (j : ℕ) → j < length out.new
        → slice_index (V.numbers out.new) j ≡ lane BITS packed j }
{
    if LANES > 6 && packed == 0 {
        V::clear(out);
        return;
    }
    let base: u64 = 1 << BITS;
    let mut rest = packed;
    for j in 0..LANES {
        out[j] = V::from_u64(rest % base);
        rest /= base;
    }
}

// Does the same where only some values are asked for.
fn cut_some<V: CellValue>(bits: u32, packed: u64, out: &mut [V])
    requires bits { IsBits bits }
    requires fits { bits ≤ V.width }
    ensures { (j : ℕ) → j < length out.new
        → slice_index (V.numbers out.new) j ≡ lane bits packed j }
{
    let base: u64 = 1 << bits;
    let mut rest = packed;
    for j in 0..out.len() {
        out[j] = V::from_u64(rest % base);
        rest /= base;
    }
}
