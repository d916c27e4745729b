// Which pixels of a row have colour.

ghost use Rattle.std.specs.Prelude.{◌≡◌, ◌+◌, ◌*◌, ◌<◌, ◌≤◌, ℕ, length, nat_le, slice_index, if◌then◌else◌};
ghost use Rattle.lists.specs.Words.{sum_below};
ghost use Rattle.page_model.specs.Limits.{most_maxval, most_plates};
ghost use Rattle.page_model.specs.Page.{height, maxval, plates, tint, width};
ghost use Rattle.keepaway.specs.Rows.{IsRow};
ghost use Rattle.underprint.specs.Lists.{colour_level};
ghost use Rattle.underprint.specs.Underprint.{colour_tint, is_colour as colour_spec};

use crate::parts::WhiteList;
use crate::widths::width_in;
use keepaway::rows::tints_of_row;
use page_model::page::Page;

/// Whether plate c has colour.
fn is_colour(page: &Page, whites: &WhiteList, c: u32) -> bool
    requires { c < plates page.now }
    ensures { result ≡ colour_spec page.now whites.now c }
{
    let ink = page.ink(c);
    ink.kind.counts() && width_in(whites.as_slice(), ink.name.as_slice()).is_none()
}

/// Adds the tints of a row to its sums.
fn add_tints(tints: &[u16], sums: &mut [u32])
    requires long { length sums.old ≡ length tints.now }
    requires small { (x : ℕ) → x < length tints.now
        → slice_index sums.old x ≤ most_plates * most_maxval }
    ensures long { length sums.new ≡ length sums.old }
    ensures each { (x : ℕ) → x < length tints.now
        → slice_index sums.new x ≡ slice_index sums.old x + slice_index tints.now x }
{
    for x in 0..tints.len() {
        sums[x] += u32::from(tints[x]);
    }
}

/// Adds the tints of plate c in row y, if it has colour, to the sums of the plates before it.
fn add_plate(page: &Page, whites: &WhiteList, c: u32, y: u32, sums: &mut [u32])
    requires plate { c < plates page.now }
    requires row { y < height page.now }
    requires long { length sums.old ≡ width page.now }
    requires small { (x : ℕ) → x < width page.now → slice_index sums.old x ≤ c * most_maxval }
    ensures long { length sums.new ≡ length sums.old }
    ensures each { (x : ℕ) → x < width page.now → slice_index sums.new x
        ≡ slice_index sums.old x + colour_tint page.now whites.now (record { x = x; y = y }) c }
    ensures small { (x : ℕ) → x < width page.now
        → slice_index sums.new x ≤ (c + 1) * most_maxval }
{
    let _valid = page.plates();
    if is_colour(page, whites, c) {
        add_tints(tints_of_row(page, c, y), sums);
    }
}

/// Writes the sums of the tints of the plates that have colour.
fn add_plates(page: &Page, whites: &WhiteList, y: u32, sums: &mut [u32])
    requires row { y < height page.now }
    requires long { length sums.old ≡ width page.now }
    ensures long { length sums.new ≡ width page.now }
    ensures each { (x : ℕ) → x < width page.now → slice_index sums.new x
        ≡ sum_below (colour_tint page.now whites.now (record { x = x; y = y })) (plates page.now) }
    ensures small { (x : ℕ) → x < width page.now
        → slice_index sums.new x ≤ plates page.now * most_maxval }
{
    sums.fill(0);
    for c in 0..page.plates() {
        add_plate(page, whites, c, y, sums);
    }
}

/// Whether a sum of tints is a tenth of full ink or more: 1 or 0.
fn level_of(full: u32, sum: u32) -> u8
    requires { sum ≤ most_plates * most_maxval }
    ensures { result ≡ (if nat_le full (10 * sum) then 1 else 0) }
{
    u8::from(full <= 10 * sum)
}

/// Writes whether each pixel of row y has colour: 1 or 0. `sums` is a buffer for the row.
pub(crate) fn write_colours(
    page: &Page,
    whites: &WhiteList,
    y: u32,
    sums: &mut [u32],
    levels: &mut [u8],
)
    requires row { y < height page.now }
    requires sums { length sums.old ≡ width page.now }
    requires levels { length levels.old ≡ width page.now }
    ensures row { IsRow page.now (colour_level page.now whites.now) y levels.new }
    ensures sums { length sums.new ≡ length sums.old }
{
    add_plates(page, whites, y, sums);
    let full = page.maxval();
    for x in 0..levels.len() {
        levels[x] = level_of(full, sums[x]);
    }
}
