// A row of tints, plate after plate.

ghost use Rattle.std.specs.Prelude.{◌≡◌, ◌<◌, ◌+◌, ◌*◌, ℕ, length, slice_index};
ghost use Rattle.row_values.specs.Quiet.{IsRowTo};
ghost use Rattle.page_model.specs.Page.{height, plates, tint, width};
ghost use Rattle.page_model.specs.Tints.{new};

use page_model::page::Page;

/// The tints of plate c, row by row.
#[tactic(auto, using(crate::proofs::RowLemmas::plane_long))]
fn tints_of<'a>(page: &'a Page, c: u32) -> &'a [u16]
    requires plate { c < plates page.now }
    ensures len { length result.now ≡ width page.now * height page.now }
    ensures each { (x y : ℕ)
        → slice_index result.now (y * width page.now + x)
        ≡ tint page.now c (record { x = x; y = y }) }
{
    let planes = page.planes().as_slice();
    planes[c as usize].tints.as_slice()
}

/// The tints of plate c in row y.
pub fn tints_of_row<'a>(page: &'a Page, c: u32, y: u32) -> &'a [u16]
    requires plate { c < plates page.now }
    requires row { y < height page.now }
    ensures len { length result.now ≡ width page.now }
    ensures each { (x : ℕ) → x < width page.now
        → slice_index result.now x ≡ tint page.now c (record { x = x; y = y }) }
{
    let width = page.width() as usize;
    let start = y as usize * width;
    let tints = tints_of(page, c);
    &tints[start..start + width]
}

/// Copies the page's tints of plate c in row y to `out`.
fn copy_tints(page: &Page, c: u32, y: u32, out: &mut [u16])
    requires plate { c < plates page.now }
    requires row { y < height page.now }
    requires out { length out.old ≡ plates page.now * width page.now }
    ensures here { (x : ℕ) → x < width page.now
        → slice_index out.new (c * width page.now + x) ≡ tint page.now c (record { x = x; y = y }) }
    ensures kept { (i : ℕ) → i < c * width page.now
        → slice_index out.new i ≡ slice_index out.old i }
    ensures len { length out.new ≡ length out.old }
{
    let tints = tints_of_row(page, c, y);
    let width = page.width() as usize;
    let start = c as usize * width;
    out[start..start + width].copy_from_slice(tints);
}

/// Copies the page's tints of row y to `out`, plate after plate.
pub fn copy_row(page: &Page, y: u32, out: &mut [u16])
    requires row { y < height page.now }
    requires out { length out.old ≡ plates page.now * width page.now }
    ensures { IsRowTo page.now y 0 out.new }
{
    for c in 0..page.plates() {
        copy_tints(page, c, y, out);
    }
}

/// Writes the new tints of sample x, one for each plate, to `out`, a row plate after plate.
pub fn put_tints(page: &Page, y: u32, x: u32, tints: &[u16], out: &mut [u16])
    requires row { y < height page.now }
    requires column { x < width page.now }
    requires plates { length tints.now ≡ plates page.now }
    requires tints { (c : ℕ) → c < plates page.now
        → slice_index tints.now c ≡ new page.now (record { x = x; y = y }) c }
    requires out { IsRowTo page.now y x out.old }
    ensures { IsRowTo page.now y (x + 1) out.new }
{
    let width = page.width() as usize;
    for c in 0..tints.len() {
        out[c * width + x as usize] = tints[c];
    }
}
