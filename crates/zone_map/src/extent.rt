// The heights between which a path lies: no segment of it crosses a row above or below them.

ghost use Rattle.std.specs.Prelude.{◌≡◌, ◌&&◌, ℕ, ◌<◌, ◌≤◌, All, int_le, int_lt, length, nat_abs, true};
ghost use Rattle.page_model.specs.Conditions.{IsVertex};
ghost use Rattle.page_model.specs.Limits.{most_resolution};
ghost use Rattle.page_model.specs.Page.{path_at};
ghost use Rattle.zone_map.specs.Extents.{IsLow, Spans, SpansZones};
ghost use Rattle.zone_map.specs.PagePoints.{furthest};

use crate::crossings::point_of;
use page_model::page::Page;
use page_model::parts::Vertex;

/// The heights of the lowest and the highest vertex of a path, in the units of a point.
#[derive(Clone, Copy, Debug, Drop)]
pub struct Extent {
    pub low: i64,
    pub high: i64,
}

/// The extent of an empty path: no row meets it.
pub const NO_EXTENT: Extent = Extent { low: 0, high: 0 };

/// Whether a row at height y may meet a path of that extent.
pub(crate) fn meets(extent: Extent, y: i64) -> bool
    requires extent { IsLow extent }
    requires y { nat_abs y ≤ furthest }
    ensures { result ≡ (int_le extent.low y && int_lt y extent.high) }
{
    extent.low <= y && y < extent.high
}

/// The extent that includes a height too.
fn grown(extent: Extent, y: i64) -> Extent
    requires extent { IsLow extent }
    requires y { nat_abs y ≤ furthest }
    ensures near { IsLow result }
    ensures low { int_le result.low extent.low ≡ true }
    ensures high { int_le extent.high result.high ≡ true }
    ensures low_y { int_le result.low y ≡ true }
    ensures high_y { int_le y result.high ≡ true }
{
    let low = if y < extent.low { y } else { extent.low };
    let high = if extent.high < y { y } else { extent.high };
    Extent { low, high }
}

/// The extent of a path.
fn extent_of(path: &[Vertex], resolution: u32) -> Extent
    requires path { All IsVertex path.now }
    requires resolution { resolution ≤ most_resolution }
    ensures near { IsLow result }
    ensures spans { Spans resolution result path.now }
{
    if path.is_empty() {
        return NO_EXTENT;
    }
    let first = point_of(path[0], resolution).y;
    let mut extent = Extent {
        low: first,
        high: first,
    };
    for i in 0..path.len() {
        extent = grown(extent, point_of(path[i], resolution).y);
    }
    extent
}

/// Writes the extent of the path of each zone of a page, zone by zone.
pub fn write_extents(page: &Page, out: &mut [Extent])
    requires { length page.now.zones ≤ length out.old }
    ensures { SpansZones page.now out.new }
{
    let _valid = page.plates();
    for z in 0..page.zones() {
        out[z as usize] = extent_of(page.path(z).as_slice(), page.resolution());
    }
}
