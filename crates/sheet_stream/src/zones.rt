// The zones of a sheet as seen from a strip's own corner, written over an earlier strip's.

ghost use Rattle.std.specs.Prelude.{◌≡◌, ◌+◌, ◌<◌, ◌≤◌, ◌^◌, map};
ghost use Rattle.sheet_geometry.specs.Outline.{IsOutlineSheet};
ghost use Rattle.page_model.specs.Page.{height};
ghost use Rattle.sheet_stream.specs.StoredStrips.{TurnsTo};
ghost use Rattle.sheet_geometry.specs.Forms.{zone_form};

use page_model::parts::PageParts;
use sheet_geometry::corners::points;
use sheet_geometry::refill::move_zones;
use sheet_geometry::spans::Span;

/// Moves a strip of a sheet to other rows: its zones become those of the sheet as seen from the new corner. Nothing
/// else of it is read or changed, and nothing is allocated.
pub fn turn_to(outline: &PageParts, row: &Span, strip: &mut PageParts)
    requires outline { IsOutlineSheet outline.now }
    requires low { height outline.now < 2 ^ 30 }
    requires inside { row.now.from + row.now.wide ≤ height outline.now }
    requires form { map zone_form strip.old.zones ≡ map zone_form outline.now.zones }
    ensures { TurnsTo outline.now row.now strip.old strip.new }
{
    let planes = outline.planes.as_slice();
    let below = planes[0].height - (row.from + row.wide);
    let right = points(outline.resolution, 0);
    let up = points(outline.resolution, below);
    move_zones(outline.zones.as_slice(), right, up, &mut strip.zones);
}
