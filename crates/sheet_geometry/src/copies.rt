// Copies of a sheet's inks and zones, the zones moved to a window's corner.

ghost use Rattle.std.specs.Prelude.{◌≡◌, ◌∷◌, ◌++◌, ◌<◌, ◌≤◌, ◌^◌, [], All, IfOk, OnOk, map};
ghost use Rattle.page_model.specs.declared.parts.Zone.{Zone};
ghost use Rattle.page_model.specs.Conditions.{IsVertex};
ghost use Rattle.sheet_geometry.specs.Windows.{moved_vertex, moved_zone};

use crate::corners::vertex_of;
use lists::list::List;
use lists::names::copy_name;
use page_model::parts::{
    Ink, InkList, Limit, LimitList, OutOfMemory, Vertex, VertexList, Zone, ZoneList,
};
use std::alloc::Global;

/// Adds the item at the end.
pub fn push<T: Drop>(list: &mut List<T>, item: T) -> Result<(), OutOfMemory>
    ensures { OnOk result (list.new ≡ list.old ++ item ∷ []) }
{
    match list.push(item) {
        Ok(()) => Ok(()),
        Err(_) => Err(OutOfMemory),
    }
}

fn ink_of(alloc: Global, ink: &Ink) -> Result<Ink, OutOfMemory>
    ensures { IfOk result (λ copy. copy ≡ ink.now) }
{
    Ok(Ink {
        name: copy_name(alloc, ink.name.as_slice())?,
        density: ink.density,
        kind: ink.kind,
    })
}

/// A copy of inks.
pub fn inks_of(alloc: Global, inks: &[Ink]) -> Result<InkList, OutOfMemory>
    ensures { IfOk result (λ copies. copies ≡ inks.now) }
{
    let mut copies = List::new(alloc);
    for ink in inks {
        push(&mut copies, ink_of(alloc, ink)?)?;
    }
    Ok(copies)
}

fn limit_of(alloc: Global, limit: &Limit) -> Result<Limit, OutOfMemory>
    ensures { IfOk result (λ copy. copy ≡ limit.now) }
{
    Ok(Limit {
        name: copy_name(alloc, limit.name.as_slice())?,
        step: limit.step,
    })
}

fn limits_of(alloc: Global, limits: &[Limit]) -> Result<LimitList, OutOfMemory>
    ensures { IfOk result (λ copies. copies ≡ limits.now) }
{
    let mut copies = List::new(alloc);
    for limit in limits {
        push(&mut copies, limit_of(alloc, limit)?)?;
    }
    Ok(copies)
}

fn path_of(alloc: Global, path: &[Vertex], right: u64, up: u64) -> Result<VertexList, OutOfMemory>
    requires vertices { All IsVertex path.now }
    requires right { right < 2 ^ 50 }
    requires up { up < 2 ^ 50 }
    ensures { IfOk result (λ moved. moved ≡ map (moved_vertex right up) path.now) }
{
    let mut moved = List::new(alloc);
    for vertex in path {
        push(&mut moved, vertex_of(vertex, right, up))?;
    }
    Ok(moved)
}

fn zone_of(alloc: Global, zone: &Zone, right: u64, up: u64) -> Result<Zone, OutOfMemory>
    requires vertices { All IsVertex zone.now.path }
    requires right { right < 2 ^ 50 }
    requires up { up < 2 ^ 50 }
    ensures { IfOk result (λ moved. moved ≡ moved_zone right up zone.now) }
{
    Ok(Zone {
        params: zone.params,
        path: path_of(alloc, zone.path.as_slice(), right, up)?,
        limits: limits_of(alloc, zone.limits.as_slice())?,
    })
}

/// The zones as seen from a corner that is `right` and `up` away, in ten-thousandths of a point.
pub fn zones_of(alloc: Global, zones: &[Zone], right: u64, up: u64) -> Result<ZoneList, OutOfMemory>
    requires vertices { All (λ (zone : Zone). All IsVertex zone.path) zones.now }
    requires right { right < 2 ^ 50 }
    requires up { up < 2 ^ 50 }
    ensures { IfOk result (λ moved. moved ≡ map (moved_zone right up) zones.now) }
{
    let mut moved = List::new(alloc);
    for zone in zones {
        push(&mut moved, zone_of(alloc, zone, right, up)?)?;
    }
    Ok(moved)
}
