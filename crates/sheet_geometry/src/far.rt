// The first zone of a sheet with a vertex too far from a corner of it.

ghost use Rattle.std.specs.Prelude.{◌≡◌, ◌<◌, ◌^◌, length};
ghost use Rattle.std.specs.List.{list_any};
ghost use Rattle.lists.specs.Words.{first_some, or_else};
ghost use Rattle.page_model.specs.Page.{height, width};
ghost use Rattle.sheet_geometry.specs.CommonErrors.{far, is_far_by};
ghost use Rattle.sheet_geometry.specs.Outline.{IsOutlineSheet};
ghost use Rattle.sheet_geometry.specs.Windows.{points_of};

use crate::corners::points;
use crate::sheet_errors::SheetError;
use page_model::bounds::MOST_COORDINATE;
use page_model::parts::{PageParts, Vertex};

/// Returns `found`, or `later` where that is `None`.
pub fn earlier<E: Drop>(found: Option<E>, later: Option<E>) -> Option<E>
    ensures { result ≡ or_else found later }
{
    match found {
        Some(error) => Some(error),
        None => later,
    }
}

/// Whether a vertex is too far from a corner of a sheet with these sides, in ten-thousandths of a point.
fn is_far_vertex(vertex: &Vertex, wide: u64, tall: u64) -> bool
    requires wide { wide < 2 ^ 50 }
    requires tall { tall < 2 ^ 50 }
    ensures { result ≡ is_far_by wide tall vertex.now }
{
    vertex.x.unsigned_abs() + wide > MOST_COORDINATE
        || vertex.y.unsigned_abs() + tall > MOST_COORDINATE
}

/// Whether a path has such a vertex.
fn has_far(path: &[Vertex], wide: u64, tall: u64) -> bool
    requires wide { wide < 2 ^ 50 }
    requires tall { tall < 2 ^ 50 }
    ensures { result ≡ list_any (is_far_by wide tall) path.now }
{
    let mut found = false;
    for vertex in path {
        found = found || is_far_vertex(vertex, wide, tall);
    }
    found
}

/// The sides of a sheet in ten-thousandths of a point.
fn sides_of(sheet: &PageParts) -> (u64, u64)
    requires sheet { IsOutlineSheet sheet.now }
    requires narrow { width sheet.now < 2 ^ 30 }
    requires low { height sheet.now < 2 ^ 30 }
    ensures wide { result.0 ≡ points_of sheet.now.resolution (width sheet.now) }
    ensures tall { result.1 ≡ points_of sheet.now.resolution (height sheet.now) }
    ensures wide_fits { result.0 < 2 ^ 50 }
    ensures tall_fits { result.1 < 2 ^ 50 }
{
    let planes = sheet.planes.as_slice();
    let wide = points(sheet.resolution, planes[0].width);
    let tall = points(sheet.resolution, planes[0].height);
    (wide, tall)
}

/// Whether zone z has such a vertex.
fn far_at(sheet: &PageParts, z: u32, wide: u64, tall: u64) -> Option<SheetError>
    requires zone { z < length sheet.now.zones }
    requires wide { wide ≡ points_of sheet.now.resolution (width sheet.now) }
    requires tall { tall ≡ points_of sheet.now.resolution (height sheet.now) }
    requires wide_fits { wide < 2 ^ 50 }
    requires tall_fits { tall < 2 ^ 50 }
    ensures { result ≡ far sheet.now z }
{
    let zones = sheet.zones.as_slice();
    if has_far(zones[z as usize].path.as_slice(), wide, tall) {
        Some(SheetError::Far(z))
    } else {
        None
    }
}

/// The error of the first zone with a vertex too far from a corner of the sheet.
pub fn first_far(sheet: &PageParts) -> Option<SheetError>
    requires sheet { IsOutlineSheet sheet.now }
    requires narrow { width sheet.now < 2 ^ 30 }
    requires low { height sheet.now < 2 ^ 30 }
    ensures { result ≡ first_some (far sheet.now) (length sheet.now.zones) }
{
    let (wide, tall) = sides_of(sheet);
    let mut found = None;
    for z in 0..sheet.zones.len() as u32 {
        found = earlier(found, far_at(sheet, z, wide, tall));
    }
    found
}
