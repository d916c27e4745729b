// What a window shows replaces what a window of the same form and sides showed before. Nothing here allocates: the
// allocators are those of lists that stay empty.

ghost use Rattle.std.specs.Prelude.{◌≡◌, ◌+◌, ◌*◌, ◌++◌, ◌<◌, ◌≤◌, ◌^◌, ℕ, All, drop, length, map, slice_index, take};
ghost use Rattle.page_model.specs.declared.parts.Plane.{Plane};
ghost use Rattle.page_model.specs.declared.parts.Zone.{Zone};
ghost use Rattle.page_model.specs.Conditions.{IsVertex};
ghost use Rattle.page_model.specs.Planes.{plane_at};
ghost use Rattle.sheet_geometry.specs.Windows.{moved_vertex, moved_zone, shown_plane};
ghost use Rattle.sheet_geometry.specs.Forms.{zone_form};
ghost use Rattle.sheet_geometry.specs.Shown.{Covers, shown_tints};

use crate::corners::vertex_of;
use crate::cuts::Cut;
use crate::planes::run_of;
use lists::list::List;
use page_model::parts::{Plane, PlaneList, Vertex, VertexList, Zone, ZoneList};
use std::alloc::Global;

/// Writes a run of tints to `tints`, from one place on.
pub fn put_run(run: &[u16], from: usize, tints: &mut [u16])
    requires { from + length run.now ≤ length tints.old }
    ensures { tints.new ≡ take from tints.old ++ (run.now
        ++ drop (from + length run.now) tints.old) }
{
    tints[from..from + run.len()].copy_from_slice(run);
}

/// Copies the tints that a window shows to a list with as many.
fn show_tints(tints: &[u16], wide: usize, cut: &Cut, shown: &mut [u16])
    requires covers { Covers wide cut.now (length tints.now) }
    requires long { length shown.old ≡ cut.now.width * cut.now.height }
    ensures { shown.new ≡ shown_tints wide cut.now tints.now (cut.now.width * cut.now.height) }
{
    for y in 0..cut.height {
        let from = (cut.top + y) as usize * wide + cut.left as usize;
        let run = run_of(tints, from, cut.width as usize);
        put_run(run, y as usize * cut.width as usize, shown);
    }
}

/// Copies the part of a plane that a window shows to a plane with as many tints.
fn show_plane(alloc: Global, plane: &Plane, wide: usize, cut: &Cut, shown: &mut Plane)
    requires covers { Covers wide cut.now (length plane.now.tints) }
    requires long { length shown.old.tints ≡ cut.now.width * cut.now.height }
    ensures { shown.new ≡ shown_plane wide cut.now plane.now }
{
    let mut tints = std::mem::replace(&mut shown.tints, List::new(alloc)).into_vec();
    show_tints(plane.tints.as_slice(), wide, cut, &mut tints);
    shown.width = cut.width;
    shown.height = cut.height;
    shown.maxval = plane.maxval;
    shown.tints = List::from_vec(tints);
}

/// Copies the part of each plane that a window shows to planes with as many tints.
pub fn show_planes(alloc: Global, planes: &[Plane], wide: usize, cut: &Cut, shown: &mut PlaneList)
    requires covers { All (λ (plane : Plane). Covers wide cut.now (length plane.tints))
        planes.now }
    requires count { length shown.old ≡ length planes.now }
    requires long { (c : ℕ) → c < length shown.old
        → length (plane_at shown.old c).tints ≡ cut.now.width * cut.now.height }
    ensures { shown.new ≡ map (shown_plane wide cut.now) planes.now }
{
    for c in 0..planes.len() {
        show_plane(alloc, &planes[c], wide, cut, shown.item_mut(c));
    }
}

/// Writes the moved vertices of a path over as many others.
fn move_path(path: &[Vertex], right: u64, up: u64, moved: &mut VertexList)
    requires vertices { All IsVertex path.now }
    requires right { right < 2 ^ 50 }
    requires up { up < 2 ^ 50 }
    requires count { length moved.old ≡ length path.now }
    ensures { moved.new ≡ map (moved_vertex right up) path.now }
{
    for k in 0..path.len() {
        let _old = moved.set(k, vertex_of(&path[k], right, up));
    }
}

/// Writes a moved zone over one with as many vertices and the same limits.
fn move_zone(zone: &Zone, right: u64, up: u64, moved: &mut Zone)
    requires vertices { All IsVertex zone.now.path }
    requires right { right < 2 ^ 50 }
    requires up { up < 2 ^ 50 }
    requires form { zone_form moved.old ≡ zone_form zone.now }
    ensures { moved.new ≡ moved_zone right up zone.now }
{
    moved.params = zone.params;
    move_path(zone.path.as_slice(), right, up, &mut moved.path);
}

/// Writes moved zones over zones with as many vertices and the same limits.
pub fn move_zones(zones: &[Zone], right: u64, up: u64, moved: &mut ZoneList)
    requires vertices { All (λ (zone : Zone). All IsVertex zone.path) zones.now }
    requires right { right < 2 ^ 50 }
    requires up { up < 2 ^ 50 }
    requires form { map zone_form moved.old ≡ map zone_form zones.now }
    ensures { moved.new ≡ map (moved_zone right up) zones.now }
{
    for z in 0..zones.len() {
        move_zone(&zones[z], right, up, moved.item_mut(z));
    }
}
