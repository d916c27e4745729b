ghost use Rattle.std.specs.Prelude.{◌≡◌, ◌+◌, ◌*◌, ◌<◌, ◌≤◌, ◌==◌, ◌&&◌, not, true, ℕ, length, slice_index, if◌then◌else◌};
ghost use Rattle.std.specs.List.{list_any};
ghost use Rattle.std.specs.Str.{bytes_eq};
ghost use Rattle.page_model.specs.Page.{height, plates, tint, width};
ghost use Rattle.page_model.specs.Zones.{zone_of, AreZones as AreRowZones};
ghost use Rattle.draw_back.specs.Fields.{Lists, kept as kept_by_lists};
ghost use Rattle.keepaway.specs.Keepaway.{is_black_ink as black_ink_spec, is_drawn as drawn_spec, kept, near_limit};
ghost use Rattle.keepaway.specs.Rows.{HasKept, IsCover, IsRow, Reaches};

use crate::cover::Cover;
use crate::levels::{is_black_everywhere, is_black_ink, is_black_somewhere};
use crate::parts::RichBlack;
use crate::rows::{put_tints, row_of, tints_of, tints_of_row};
use draw_back::laws::window_law;
use draw_back::{Field, Reach, draw_row};
use lists::names::same_name;
use page_model::laws::zone_law;
use page_model::page::Page;
use page_model::parts::{At, NameList};

/// Half a pixel, in ten-thousandths of a point times the resolution.
const HALF: u64 = 360_000;

/// The reach of the width at the page's resolution.
fn reach_of(page: &Page, rich: &RichBlack) -> Reach
    requires { Reaches page.now rich.now }
    ensures { result.limit ≡ near_limit rich.now.width page.now.resolution }
{
    let reach = u64::from(rich.width) * u64::from(page.resolution()) + HALF;
    Reach::of((reach * reach / (4 * HALF * HALF)) as u32)
}

/// Whether the name is one of these.
fn is_among(names: &NameList, name: &[u8]) -> bool
    ensures { result ≡ list_any (bytes_eq name.now) names.now }
{
    names
        .as_slice()
        .iter()
        .any(|one| same_name(name, one.as_slice()))
}

/// Whether the rule runs for plate c.
fn is_drawn(page: &Page, spared: &NameList, c: u32) -> bool
    requires { c < plates page.now }
    ensures { result ≡ drawn_spec page.now spared.now c }
{
    let ink = page.ink(c);
    ink.kind.spreads() && !is_among(spared, ink.name.as_slice())
}

/// One tint or the other.
fn one_of(first: bool, one: u16, other: u16) -> u16
    ensures { result ≡ (if first then one else other) }
{
    if first { one } else { other }
}

/// Puts the old tint back wherever plate c's ink is black in the pixel's zone.
fn spare_row(page: &Page, c: u32, y: u32, zones: &[u8], tints: &[u16], out: &mut [u16])
    requires plate { c < plates page.now }
    requires row { y < height page.now }
    requires zones { AreRowZones page.now y zones.now }
    requires tints { length tints.now ≡ width page.now }
    requires out { length out.old ≡ width page.now }
    ensures { (x : ℕ) → x < width page.now → slice_index out.new x
        ≡ (if black_ink_spec page.now (zone_of page.now (record { x = x; y = y })) c
        then slice_index tints.now x else slice_index out.old x) }
{
    let width = page.width();
    for x in 0..width as usize {
        zone_law(page, At { x: x as u32, y });
        let black = is_black_ink(page, u32::from(zones[x]), c);
        out[x] = one_of(black, tints[x], out[x]);
    }
}

/// Does the same, without a look at the row where the ink is black in no zone.
fn spare_blacks(page: &Page, c: u32, y: u32, zones: &[u8], tints: &[u16], out: &mut [u16])
    requires plate { c < plates page.now }
    requires row { y < height page.now }
    requires zones { AreRowZones page.now y zones.now }
    requires tints { length tints.now ≡ width page.now }
    requires out { length out.old ≡ width page.now }
    ensures { (x : ℕ) → x < width page.now → slice_index out.new x
        ≡ (if black_ink_spec page.now (zone_of page.now (record { x = x; y = y })) c
        then slice_index tints.now x else slice_index out.old x) }
{
    let _valid = page.plates();
    if is_black_somewhere(page, c) {
        spare_row(page, c, y, zones, tints, out);
    }
}

/// Writes the new tints of row y of a plate for which the rule runs.
fn draw_page_row(page: &Page, rich: &RichBlack, cover: &Cover, c: u32, y: u32, out: &mut [u16])
    requires reach { Reaches page.now rich.now }
    requires cover { IsCover page.now rich.now.limit cover.now }
    requires plate { c < plates page.now }
    requires drawn { drawn_spec page.now rich.now.spared c ≡ true }
    requires row { y < height page.now }
    requires out { length out.old ≡ width page.now }
    ensures { IsRow page.now (kept page.now rich.now c) y out.new }
{
    window_law();
    let (width, height) = (page.width() as usize, page.height() as usize);
    let tints = tints_of(page, c);
    let field = Field::new(width, height, cover.marks.as_slice(), tints);
    let reach = reach_of(page, rich);
    draw_row(&field, reach, y as usize, out);
    let zones = row_of(cover.zones.as_slice(), width, y as usize);
    spare_blacks(page, c, y, zones, tints_of_row(page, c, y), out);
}

/// Writes the old tints of row y of plate c.
fn copy_row(page: &Page, c: u32, y: u32, out: &mut [u16])
    requires plate { c < plates page.now }
    requires row { y < height page.now }
    requires out { length out.old ≡ width page.now }
    ensures { (x : ℕ) → x < width page.now
        → slice_index out.new x ≡ tint page.now c (record { x = x; y = y }) }
{
    out.copy_from_slice(tints_of_row(page, c, y));
}

/// Writes the new tints of row y of a plate for which the rule runs: the old ones where its ink is black in each zone.
fn write_drawn_row(page: &Page, rich: &RichBlack, cover: &Cover, c: u32, y: u32, out: &mut [u16])
    requires reach { Reaches page.now rich.now }
    requires cover { IsCover page.now rich.now.limit cover.now }
    requires plate { c < plates page.now }
    requires drawn { drawn_spec page.now rich.now.spared c ≡ true }
    requires row { y < height page.now }
    requires out { length out.old ≡ width page.now }
    ensures { IsRow page.now (kept page.now rich.now c) y out.new }
{
    let _valid = page.plates();
    if is_black_everywhere(page, c) {
        copy_row(page, c, y, out);
    } else {
        draw_page_row(page, rich, cover, c, y, out);
    }
}

/// Writes the new tints of row y of plate c.
fn write_row(page: &Page, rich: &RichBlack, cover: &Cover, c: u32, y: u32, out: &mut [u16])
    requires reach { Reaches page.now rich.now }
    requires cover { IsCover page.now rich.now.limit cover.now }
    requires plate { c < plates page.now }
    requires row { y < height page.now }
    requires out { length out.old ≡ width page.now }
    ensures { IsRow page.now (kept page.now rich.now c) y out.new }
{
    if is_drawn(page, &rich.spared, c) {
        write_drawn_row(page, rich, cover, c, y, out);
    } else {
        out.copy_from_slice(tints_of_row(page, c, y));
    }
}

/// Writes the new tints of plate c, row by row from the top. `row` is a buffer for one row. It allocates nothing.
pub fn draw_plate(
    page: &Page,
    rich: &RichBlack,
    cover: &Cover,
    c: u32,
    row: &mut [u16],
    out: &mut [u16],
)
    requires reach { Reaches page.now rich.now }
    requires cover { IsCover page.now rich.now.limit cover.now }
    requires plate { c < plates page.now }
    requires row { length row.old ≡ width page.now }
    requires out { length out.old ≡ width page.now * height page.now }
    ensures { HasKept page.now rich.now c (height page.now) out.new }
{
    let height = page.height();
    for y in 0..height {
        write_row(page, rich, cover, c, y, row);
        put_tints(out, height as usize, y as usize, row);
    }
}
