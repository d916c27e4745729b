// How black each pixel of a row is.

ghost use Rattle.std.specs.Prelude.{◌≡◌, ◌+◌, ◌*◌, ◌<◌, ◌≤◌, ℕ, false, true, max, length, nat_le, nat_lt, slice_index, if◌then◌else◌};
ghost use Rattle.page_model.specs.Limits.{most_maxval, scale};
ghost use Rattle.page_model.specs.Page.{height, maxval, plates, tint, width};
ghost use Rattle.page_model.specs.Zones.{zone_of, AreZones as AreRowZones};
ghost use Rattle.keepaway.specs.Keepaway.{is_black_ink as black_ink_spec, level, plate_level, tint_level as tint_level_spec};
ghost use Rattle.keepaway.specs.Rows.{IsRow};

use crate::rows::tints_of_row;
use page_model::bounds::SCALE;
use page_model::laws::zone_law;
use page_model::page::Page;
use page_model::parts::At;

/// Whether plate c's ink is black in zone z.
pub(crate) fn is_black_ink(page: &Page, z: u32, c: u32) -> bool
    requires zone { z < length page.now.zones }
    requires plate { c < plates page.now }
    ensures { result ≡ black_ink_spec page.now z c }
{
    let ink = page.ink(c);
    ink.kind.spreads() && page.params(z).black_density_limit <= ink.density
}

/// Whether plate c's ink is black in some zone.
pub(crate) fn is_black_somewhere(page: &Page, c: u32) -> bool
    requires { c < plates page.now }
    ensures { result ≡ false → (z : ℕ) → z < length page.now.zones
        → black_ink_spec page.now z c ≡ false }
{
    for z in 0..page.zones() {
        if is_black_ink(page, z, c) {
            return true;
        }
    }
    false
}

/// Whether plate c's ink is black in each zone.
pub(crate) fn is_black_everywhere(page: &Page, c: u32) -> bool
    requires { c < plates page.now }
    ensures { result ≡ true → (z : ℕ) → z < length page.now.zones
        → black_ink_spec page.now z c ≡ true }
{
    for z in 0..page.zones() {
        if !is_black_ink(page, z, c) {
            return false;
        }
    }
    true
}

/// The least tint that is at the limit, in ten-thousandths of the maxval, or above.
fn least_tint(limit: u32, full: u32) -> u32
    requires limit { limit ≤ scale }
    requires full { full ≤ most_maxval }
    ensures { (t : ℕ) → nat_le (limit * full) (t * scale) ≡ nat_le result t }
{
    (limit * full + (SCALE - 1)) / SCALE
}

/// The level of a tint, by the least that is at the limit.
fn level_from(least: u32, tint: u16) -> u8
    ensures { result ≡ (if nat_lt 0 tint then (if nat_le least tint then 2 else 1) else 0) }
{
    if tint == 0 {
        0
    } else if least <= u32::from(tint) {
        2
    } else {
        1
    }
}

/// Raises the levels of a row to those of the tints, by the least that is at the limit.
fn raise_all(least: u32, tints: &[u16], levels: &mut [u8])
    requires { length levels.old ≡ length tints.now }
    ensures { (x : ℕ) → x < length tints.now → slice_index levels.new x
        ≡ max (slice_index levels.old x) (if nat_lt 0 (slice_index tints.now x)
        then (if nat_le least (slice_index tints.now x) then 2 else 1) else 0) }
{
    for x in 0..tints.len() {
        let level = level_from(least, tints[x]);
        levels[x] = levels[x].max(level);
    }
}

/// The level of a tint: 2 at the limit, in ten-thousandths of the maxval, or above; 1 below it; 0 for no ink.
fn tint_level(limit: u32, full: u32, tint: u16) -> u8
    requires limit { limit ≤ scale }
    requires full { full ≤ most_maxval }
    ensures { result ≡ tint_level_spec limit full tint }
{
    if tint == 0 {
        return 0;
    }
    if limit * full <= u32::from(tint) * SCALE {
        2
    } else {
        1
    }
}

/// The level of plate c at a pixel of zone z.
fn level_at(page: &Page, limit: u32, p: At, z: u32, c: u32, here: u16) -> u8
    requires limit { limit ≤ scale }
    requires zone { z ≡ zone_of page.now p }
    requires known { z < length page.now.zones }
    requires plate { c < plates page.now }
    requires here { here ≡ tint page.now c p }
    ensures { result ≡ plate_level page.now limit p c }
{
    if here > 0 && is_black_ink(page, z, c) {
        tint_level(limit, page.maxval(), here)
    } else {
        0
    }
}

/// Raises the levels of row y to those of plate c.
fn raise_levels(page: &Page, limit: u32, zones: &[u8], c: u32, y: u32, levels: &mut [u8])
    requires limit { limit ≤ scale }
    requires plate { c < plates page.now }
    requires row { y < height page.now }
    requires zones { AreRowZones page.now y zones.now }
    requires levels { length levels.old ≡ width page.now }
    ensures { (x : ℕ) → x < width page.now → slice_index levels.new x
        ≡ max (slice_index levels.old x) (plate_level page.now limit (record { x = x; y = y }) c) }
{
    let width = page.width();
    let tints = tints_of_row(page, c, y);
    for x in 0..width as usize {
        let p = At { x: x as u32, y };
        zone_law(page, p);
        let level = level_at(page, limit, p, u32::from(zones[x]), c, tints[x]);
        levels[x] = levels[x].max(level);
    }
}

/// Raises the levels of row y to those of plate c, without its zones where the ink is black in each.
fn raise_black(page: &Page, limit: u32, zones: &[u8], c: u32, y: u32, levels: &mut [u8])
    requires limit { limit ≤ scale }
    requires plate { c < plates page.now }
    requires row { y < height page.now }
    requires zones { AreRowZones page.now y zones.now }
    requires levels { length levels.old ≡ width page.now }
    ensures { (x : ℕ) → x < width page.now → slice_index levels.new x
        ≡ max (slice_index levels.old x) (plate_level page.now limit (record { x = x; y = y }) c) }
{
    let _valid = page.plates();
    if is_black_everywhere(page, c) {
        raise_all(
            least_tint(limit, page.maxval()),
            tints_of_row(page, c, y),
            levels,
        );
    } else {
        raise_levels(page, limit, zones, c, y, levels);
    }
}

/// Raises the levels of row y to those of plate c, if its ink is black in some zone.
fn raise_by_plate(page: &Page, limit: u32, zones: &[u8], c: u32, y: u32, levels: &mut [u8])
    requires limit { limit ≤ scale }
    requires plate { c < plates page.now }
    requires row { y < height page.now }
    requires zones { AreRowZones page.now y zones.now }
    requires levels { length levels.old ≡ width page.now }
    ensures { (x : ℕ) → x < width page.now → slice_index levels.new x
        ≡ max (slice_index levels.old x) (plate_level page.now limit (record { x = x; y = y }) c) }
{
    let _valid = page.plates();
    if is_black_somewhere(page, c) {
        raise_black(page, limit, zones, c, y, levels);
    }
}

/// Writes how black each pixel of row y is, by the zones of the row.
pub(crate) fn write_levels(page: &Page, limit: u32, zones: &[u8], y: u32, levels: &mut [u8])
    requires limit { limit ≤ scale }
    requires row { y < height page.now }
    requires zones { AreRowZones page.now y zones.now }
    requires levels { length levels.old ≡ width page.now }
    ensures { IsRow page.now (level page.now limit) y levels.new }
{
    levels.fill(0);
    for c in 0..page.plates() {
        raise_by_plate(page, limit, zones, c, y, levels);
    }
}
