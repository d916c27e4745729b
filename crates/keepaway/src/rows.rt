//! Rows of lists with an entry for each pixel of a page.

ghost use Rattle.std.specs.Prelude.{◌≡◌, ◌+◌, ◌*◌, ◌<◌, ◌≤◌, ℕ, length, slice_index};
ghost use Rattle.page_model.specs.Limits.{most_side};
ghost use Rattle.page_model.specs.Page.{plates, height, tint, width};

use page_model::page::Page;

/// Row k of a list with `width` entries a row.
pub fn row_of<'a>(list: &'a [u8], width: usize, k: usize) -> &'a [u8]
    requires narrow { width ≤ most_side }
    requires low { k ≤ most_side }
    requires inside { (k + 1) * width ≤ length list.now }
    ensures len { length result.now ≡ width }
    ensures each { (x : ℕ) → x < width
        → slice_index result.now x ≡ slice_index list.now (k * width + x) }
{
    let start = k * width;
    &list[start..start + width]
}

/// Puts row k into a list of `rows` rows.
pub fn put_row(list: &mut [u8], rows: usize, k: usize, row: &[u8])
    requires narrow { length row.now ≤ most_side }
    requires low { k < rows }
    requires few { rows ≤ most_side }
    requires long { length list.old ≡ rows * length row.now }
    ensures there { (x : ℕ) → x < length row.now
        → slice_index list.new (k * length row.now + x) ≡ slice_index row.now x }
    ensures above { (i : ℕ) → i < k * length row.now
        → slice_index list.new i ≡ slice_index list.old i }
    ensures long { length list.new ≡ length list.old }
{
    let start = k * row.len();
    list[start..start + row.len()].copy_from_slice(row);
}

/// Puts row k into a list of `rows` rows.
pub fn put_tints(list: &mut [u16], rows: usize, k: usize, row: &[u16])
    requires narrow { length row.now ≤ most_side }
    requires low { k < rows }
    requires few { rows ≤ most_side }
    requires long { length list.old ≡ rows * length row.now }
    ensures there { (x : ℕ) → x < length row.now
        → slice_index list.new (k * length row.now + x) ≡ slice_index row.now x }
    ensures above { (i : ℕ) → i < k * length row.now
        → slice_index list.new i ≡ slice_index list.old i }
    ensures long { length list.new ≡ length list.old }
{
    let start = k * row.len();
    list[start..start + row.len()].copy_from_slice(row);
}

/// The tints of plate c, row by row.
#[tactic(auto, using(crate::proofs::RowLemmas::plane_long))]
pub fn tints_of(page: &Page, c: u32) -> &[u16]
    requires plate { c < plates page.now }
    ensures len { length result.now ≡ width page.now * height page.now }
    ensures each { (x y : ℕ)
        → slice_index result.now (y * width page.now + x)
        ≡ tint page.now c (record { x = x; y = y }) }
{
    let planes = page.planes().as_slice();
    planes[c as usize].tints.as_slice()
}

/// The tints of plate c in row y.
pub fn tints_of_row(page: &Page, c: u32, y: u32) -> &[u16]
    requires plate { c < plates page.now }
    requires row { y < height page.now }
    ensures len { length result.now ≡ width page.now }
    ensures each { (x : ℕ) → x < width page.now
        → slice_index result.now x ≡ tint page.now c (record { x = x; y = y }) }
{
    let width = page.width() as usize;
    let start = y as usize * width;
    let tints = tints_of(page, c);
    &tints[start..start + width]
}
