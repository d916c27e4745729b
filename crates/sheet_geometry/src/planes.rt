// The columns and rows of planes that a window shows.

ghost use Rattle.std.specs.Prelude.{◌≡◌, ◌+◌, ◌*◌, ◌<◌, ◌≤◌, ◌^◌, ℕ, All, IfOk, length, map, slice_index};
ghost use Rattle.page_model.specs.declared.parts.Plane.{Plane};
ghost use Rattle.sheet_geometry.specs.Windows.{shown_plane};
ghost use Rattle.sheet_geometry.specs.Shown.{Covers, shown_tints};

use crate::copies::push;
use crate::cuts::Cut;
use lists::list::List;
use page_model::parts::{OutOfMemory, Plane, PlaneList, Tints};
use std::alloc::Global;

/// Returns `tints[from..from + count]`.
pub fn run_of(tints: &[u16], from: usize, count: usize) -> &[u16]
    requires { from + count ≤ length tints.now }
    ensures len { length result.now ≡ count }
    ensures each { (k : ℕ) → k < count
        → slice_index result.now k ≡ slice_index tints.now (from + k) }
{
    &tints[from..from + count]
}

fn tints_of(alloc: Global, tints: &[u16], wide: usize, cut: &Cut) -> Result<Tints, OutOfMemory>
    requires covers { Covers wide cut.now (length tints.now) }
    ensures { IfOk result (λ shown. shown
        ≡ shown_tints wide cut.now tints.now (cut.now.width * cut.now.height)) }
{
    let count = cut.width as usize * cut.height as usize;
    let Ok(mut shown) = Vec::with_capacity(alloc, count) else {
        return Err(OutOfMemory);
    };
    for y in 0..cut.height {
        let from = (cut.top + y) as usize * wide + cut.left as usize;
        let run = run_of(tints, from, cut.width as usize);
        if shown.extend_from_slice(run).is_err() {
            return Err(OutOfMemory);
        }
    }
    Ok(List::from_vec(shown))
}

fn plane_of(alloc: Global, plane: &Plane, wide: usize, cut: &Cut) -> Result<Plane, OutOfMemory>
    requires covers { Covers wide cut.now (length plane.now.tints) }
    ensures { IfOk result (λ shown. shown ≡ shown_plane wide cut.now plane.now) }
{
    Ok(Plane {
        width: cut.width,
        height: cut.height,
        maxval: plane.maxval,
        tints: tints_of(alloc, plane.tints.as_slice(), wide, cut)?,
    })
}

/// The part of each plane that a window shows.
pub fn planes_of(
    alloc: Global,
    planes: &[Plane],
    wide: usize,
    cut: &Cut,
) -> Result<PlaneList, OutOfMemory>
    requires covers { All (λ (plane : Plane). Covers wide cut.now (length plane.tints))
        planes.now }
    ensures { IfOk result (λ shown. shown ≡ map (shown_plane wide cut.now) planes.now) }
{
    let mut shown = List::new(alloc);
    for plane in planes {
        push(&mut shown, plane_of(alloc, plane, wide, cut)?)?;
    }
    Ok(shown)
}
