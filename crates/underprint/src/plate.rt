ghost use Rattle.std.specs.Prelude.{◌≡◌, ◌≢◌, ◌+◌, ◌*◌, ◌/◌, ◌<◌, ◌≤◌, ℕ, All, Some, length, nat_lt, slice_index};
ghost use Rattle.lists.specs.Words.{square};
ghost use Rattle.page_model.specs.Limits.{most_reach};
ghost use Rattle.page_model.specs.Page.{height, plates, width};
ghost use Rattle.keepaway.specs.Keepaway.{near_limit, pixel};
ghost use Rattle.keepaway.specs.Rows.{IsRow};
ghost use Rattle.underprint.specs.Lists.{AreMarks, HasKept, IsField, Reaches};
ghost use Rattle.underprint.specs.Underprint.{drawn_to, kept, kept_by};

use crate::parts::WhiteList;
use crate::thick::thickness;
use crate::widths::width_in;
use draw_back::laws::{drawn_law, window_law};
use draw_back::{Field, Reach, draw_column, draw_row};
use keepaway::rows::{put_tints, tints_of, tints_of_row};
use page_model::page::Page;
use page_model::parts::At;

/// Half a pixel, in ten-thousandths of a point times the resolution.
const HALF: u64 = 360_000;

/// The reach of the width at the page's resolution.
fn reach_of(page: &Page, wide: u32) -> Reach
    requires { Reaches page.now wide }
    ensures { result.limit ≡ near_limit wide page.now.resolution }
{
    let reach = u64::from(wide) * u64::from(page.resolution()) + HALF;
    Reach::of((reach * reach / (4 * HALF * HALF)) as u32)
}

/// Whether ink of this thickness is thinner than three widths.
fn is_thin(page: &Page, wide: u32, thick: u32) -> bool
    requires reach { Reaches page.now wide }
    requires thick { thick ≤ 1 + 4 * most_reach }
    ensures { result ≡ nat_lt (thick * pixel) (3 * (wide * page.now.resolution)) }
{
    u64::from(thick) * (2 * HALF) < 3 * (u64::from(wide) * u64::from(page.resolution()))
}

/// The reach of thin ink: a third of its thickness.
fn thin_reach(thick: u32) -> Reach
    requires { thick ≤ 3 * most_reach }
    ensures { result.limit ≡ square (thick / 3) }
{
    let third = thick / 3;
    Reach::of(third * third)
}

/// The marks and the tints of plate c.
fn field_of<'a>(page: &'a Page, whites: &WhiteList, marks: &'a [u8], c: u32) -> Field<'a>
    requires marks { AreMarks page.now whites.now marks.now }
    requires plate { c < plates page.now }
    ensures { IsField page.now whites.now c result }
{
    let (width, height) = (page.width() as usize, page.height() as usize);
    Field::new(width, height, marks, tints_of(page, c))
}

/// The new tint of column x in row y, where the width alone has drawn it back: thin ink is drawn back by less.
fn put_thin(
    page: &Page,
    whites: &WhiteList,
    field: &Field,
    wide: u32,
    c: u32,
    p: At,
    out: &mut [u16],
)
    requires reach { Reaches page.now wide }
    requires field { IsField page.now whites.now c field.now }
    requires plate { c < plates page.now }
    requires column { p.x < width page.now }
    requires row { p.y < height page.now }
    requires out { length out.old ≡ width page.now }
    requires old { slice_index out.old p.x
        ≡ drawn_to page.now whites.now c (near_limit wide page.now.resolution) p }
    ensures there { slice_index out.new p.x ≡ kept_by page.now whites.now (Some wide) c p }
    ensures others { (i : ℕ) → i ≢ p.x → slice_index out.new i ≡ slice_index out.old i }
    ensures long { length out.new ≡ length out.old }
{
    window_law();
    drawn_law();
    let column = p.x as usize;
    let tint = page.tint(c, p.x, p.y);
    if out[column] != tint {
        let thick = thickness(page, wide, c, p);
        if is_thin(page, wide, thick) {
            out[column] = tint;
            draw_column(field, thin_reach(thick), p.y as usize, column, out);
        }
    }
}

/// Writes the new tints of row y of a plate that is drawn back by this width.
fn draw_page_row(
    page: &Page,
    whites: &WhiteList,
    marks: &[u8],
    wide: u32,
    c: u32,
    y: u32,
    out: &mut [u16],
)
    requires reach { Reaches page.now wide }
    requires marks { AreMarks page.now whites.now marks.now }
    requires plate { c < plates page.now }
    requires row { y < height page.now }
    requires out { length out.old ≡ width page.now }
    ensures { IsRow page.now (kept_by page.now whites.now (Some wide) c) y out.new }
{
    window_law();
    let field = field_of(page, whites, marks, c);
    draw_row(&field, reach_of(page, wide), y as usize, out);
    for x in 0..page.width() {
        put_thin(page, whites, &field, wide, c, At { x, y }, out);
    }
}

/// Writes the new tints of row y of plate c.
fn write_row(page: &Page, whites: &WhiteList, marks: &[u8], c: u32, y: u32, out: &mut [u16])
    requires reach { All (λ white. Reaches page.now white.width) whites.now }
    requires marks { AreMarks page.now whites.now marks.now }
    requires plate { c < plates page.now }
    requires row { y < height page.now }
    requires out { length out.old ≡ width page.now }
    ensures { IsRow page.now (kept page.now whites.now c) y out.new }
{
    match width_in(whites.as_slice(), page.ink(c).name.as_slice()) {
        Some(wide) => draw_page_row(page, whites, marks, wide, c, y, out),
        None => out.copy_from_slice(tints_of_row(page, c, y)),
    }
}

/// Writes the new tints of plate c, row by row from the top, by the marks of `cover_of`. `row` is a buffer for one row.
/// It allocates nothing.
pub fn draw_plate(
    page: &Page,
    whites: &WhiteList,
    marks: &[u8],
    c: u32,
    row: &mut [u16],
    out: &mut [u16],
)
    requires reach { All (λ white. Reaches page.now white.width) whites.now }
    requires marks { AreMarks page.now whites.now marks.now }
    requires plate { c < plates page.now }
    requires row { length row.old ≡ width page.now }
    requires out { length out.old ≡ width page.now * height page.now }
    ensures { HasKept page.now whites.now c (height page.now) out.new }
{
    let height = page.height();
    for y in 0..height {
        write_row(page, whites, marks, c, y, row);
        put_tints(out, height as usize, y as usize, row);
    }
}
