// A strip before its rows are read.

ghost use Rattle.std.specs.Prelude.{◌≡◌, ◌+◌, ◌*◌, ◌<◌, ◌≤◌, ◌^◌, All, IfOk, map, replicate};
ghost use Rattle.sheet_geometry.specs.Outline.{IsOutlineSheet};
ghost use Rattle.page_model.specs.declared.parts.Plane.{Plane};
ghost use Rattle.page_model.specs.Page.{height, width};
ghost use Rattle.sheet_stream.specs.StoredStrips.{IsStripOf, blank_plane};

use lists::list::List;
use lists::memory::push;
use page_model::parts::{OutOfMemory, PageParts, Plane, PlaneList, Tints};
use sheet_geometry::copies::{inks_of, zones_of};
use sheet_geometry::corners::points;
use sheet_geometry::spans::Span;
use std::alloc::Global;

/// Allocates a strip of these rows of a sheet, given without its tints. The memory does for all strips of the sheet
/// with as many rows. Until rows are read all tints are 0. It fails only where memory runs out.
pub fn first_strip(alloc: Global, outline: &PageParts, row: &Span) -> Result<PageParts, OutOfMemory>
    requires outline { IsOutlineSheet outline.now }
    requires narrow { width outline.now < 2 ^ 30 }
    requires low { height outline.now < 2 ^ 30 }
    requires inside { row.now.from + row.now.wide ≤ height outline.now }
    ensures strip { IfOk result (IsStripOf outline.now row.now) }
    ensures blank { IfOk result (λ strip. strip.planes
        ≡ map (blank_plane row.now.wide) outline.now.planes) }
{
    let planes = outline.planes.as_slice();
    let below = planes[0].height - (row.from + row.wide);
    let up = points(outline.resolution, below);
    let zones = zones_of(
        alloc,
        outline.zones.as_slice(),
        points(outline.resolution, 0),
        up,
    )?;
    Ok(PageParts {
        resolution: outline.resolution,
        planes: blank_planes(alloc, planes, row.wide)?,
        inks: inks_of(alloc, outline.inks.as_slice())?,
        zones,
    })
}

fn blank_planes(alloc: Global, planes: &[Plane], rows: u32) -> Result<PlaneList, OutOfMemory>
    requires narrow { All (λ (plane : Plane). plane.width < 2 ^ 30) planes.now }
    requires low { rows < 2 ^ 30 }
    ensures { IfOk result (λ blank. blank ≡ map (blank_plane rows) planes.now) }
{
    let mut blank = List::new(alloc);
    for plane in planes {
        push(&mut blank, plane_of(alloc, plane, rows)?)?;
    }
    Ok(blank)
}

fn plane_of(alloc: Global, plane: &Plane, rows: u32) -> Result<Plane, OutOfMemory>
    requires narrow { plane.now.width < 2 ^ 30 }
    requires low { rows < 2 ^ 30 }
    ensures { IfOk result (λ blank. blank ≡ blank_plane rows plane.now) }
{
    Ok(Plane {
        width: plane.width,
        height: rows,
        maxval: plane.maxval,
        tints: no_tints(alloc, plane.width as usize * rows as usize)?,
    })
}

// A list of `count` tints, all 0.
fn no_tints(alloc: Global, count: usize) -> Result<Tints, OutOfMemory>
    ensures { IfOk result (λ tints. tints ≡ replicate count 0) }
{
    match vec![in alloc; 0u16; count] {
        Ok(tints) => Ok(List::from_vec(tints)),
        Err(_) => Err(OutOfMemory),
    }
}
