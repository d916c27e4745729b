ghost use Rattle.std.specs.Prelude.{◌≡◌, ℕ, ◌<◌, ◌≤◌, ◌+◌, ◌-◌, ◌*◌, if◌then◌else◌, length, nat_abs, pos, slice_index, sum};
ghost use Rattle.page_model.specs.Limits.{scale};
ghost use Rattle.page_model.specs.Page.{height, path_at, width};
ghost use Rattle.page_model.specs.Zones.{AreZones, covers};
ghost use Rattle.zone_map.specs.Extents.{IsLow, Spans, SpansZones};
ghost use Rattle.zone_map.specs.PagePoints.{furthest};

use crate::extent::{Extent, meets};
use crate::spans::{SpanBuf, write_spans};
use crate::tally::tally_path;
use page_model::page::Page;

/// The height of the middles of a row's samples.
fn middle_of_row(page: &Page, y: u32) -> i64
    requires { y < height page.now }
    ensures value { result ≡ pos ((2 * (height page.now - y) - 1) * (36 * scale)) }
    ensures near { nat_abs result ≤ furthest }
{
    let _valid = page.plates();
    i64::from(2 * (page.height() - y) - 1) * 360_000
}

/// Writes zone z for each sample of row y that its path covers.
fn cover(page: &Page, z: u32, y: u32, out: &mut [u8], ups: &mut [u32], downs: &mut [u32])
    requires zone { z < length page.now.zones }
    requires row { y < height page.now }
    requires out { length out.old ≡ width page.now }
    requires ups { length ups.old ≡ width page.now + 1 }
    requires downs { length downs.old ≡ width page.now + 1 }
    requires no_ups { sum ups.old ≡ 0 }
    requires no_downs { sum downs.old ≡ 0 }
    ensures each { (x : ℕ) → x < width page.now
        → slice_index out.new x
        ≡ (if covers page.now (record { x = x; y = y }) z then z else slice_index out.old x) }
    ensures out { length out.new ≡ width page.now }
    ensures ups { length ups.new ≡ width page.now + 1 }
    ensures downs { length downs.new ≡ width page.now + 1 }
    ensures no_ups { sum ups.new ≡ 0 }
    ensures no_downs { sum downs.new ≡ 0 }
{
    let path = page.path(z).as_slice();
    let height = middle_of_row(page, y);
    if tally_path(ups, downs, path, page.resolution(), height, page.width()) > 0 {
        write_spans(out, ups, downs, z as u8);
        ups.fill(0);
        downs.fill(0);
    }
}

/// Writes the zone of each sample of row y, from the left: the last zone whose path winds round the sample's middle,
/// zone 0 where none does. `spans` is a buffer for rows of the page's width.
pub fn zone_row(page: &Page, y: u32, out: &mut [u8], spans: &mut SpanBuf)
    requires row { y < height page.now }
    requires out { length out.old ≡ width page.now }
    requires spans { spans.old.wide ≡ width page.now }
    ensures zones { AreZones page.now y out.new }
    ensures spans { spans.new ≡ spans.old }
{
    let ups = spans.ups.as_mut_slice();
    let downs = spans.downs.as_mut_slice();
    ups.fill(0);
    downs.fill(0);
    out.fill(0);
    for n in 0..page.zones() - 1 {
        cover(page, n + 1, y, out, ups, downs);
    }
}

/// Does what `cover` does, for a path of that extent: a row that does not meet the extent is left at once.
fn cover_near(
    page: &Page,
    z: u32,
    y: u32,
    extent: Extent,
    out: &mut [u8],
    ups: &mut [u32],
    downs: &mut [u32],
)
    requires zone { z < length page.now.zones }
    requires row { y < height page.now }
    requires near { IsLow extent }
    requires spans { Spans page.now.resolution extent (path_at page.now z) }
    requires out { length out.old ≡ width page.now }
    requires ups { length ups.old ≡ width page.now + 1 }
    requires downs { length downs.old ≡ width page.now + 1 }
    requires no_ups { sum ups.old ≡ 0 }
    requires no_downs { sum downs.old ≡ 0 }
    ensures each { (x : ℕ) → x < width page.now
        → slice_index out.new x
        ≡ (if covers page.now (record { x = x; y = y }) z then z else slice_index out.old x) }
    ensures out { length out.new ≡ width page.now }
    ensures ups { length ups.new ≡ width page.now + 1 }
    ensures downs { length downs.new ≡ width page.now + 1 }
    ensures no_ups { sum ups.new ≡ 0 }
    ensures no_downs { sum downs.new ≡ 0 }
{
    if meets(extent, middle_of_row(page, y)) {
        cover(page, z, y, out, ups, downs);
    }
}

/// Does what `zone_row` does; a zone whose extent the row does not meet costs nothing but that test.
pub fn zone_row_near(page: &Page, y: u32, extents: &[Extent], out: &mut [u8], spans: &mut SpanBuf)
    requires row { y < height page.now }
    requires extents { SpansZones page.now extents.now }
    requires out { length out.old ≡ width page.now }
    requires spans { spans.old.wide ≡ width page.now }
    ensures zones { AreZones page.now y out.new }
    ensures spans { spans.new ≡ spans.old }
{
    let ups = spans.ups.as_mut_slice();
    let downs = spans.downs.as_mut_slice();
    ups.fill(0);
    downs.fill(0);
    out.fill(0);
    for n in 0..page.zones() - 1 {
        let extent = extents[n as usize + 1];
        cover_near(page, n + 1, y, extent, out, ups, downs);
    }
}
