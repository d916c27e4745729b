// The least tints of a window of columns, and a block of a row lowered to those beside it.
//
// Column j has the place i of a window with `j + halo = from + i`. Places off the page keep what they have.

ghost use Rattle.std.specs.Prelude.{◌≡◌, ◌+◌, ◌*◌, ◌-◌, ◌<◌, ◌≤◌, ◌==◌, ◌^◌, ℕ, min, length, slice_index, if◌then◌else◌};
ghost use Rattle.draw_back.specs.Lowers.{Lowers, IsOfPlace, IsOfSide, places_of};
ghost use Rattle.page_model.specs.Limits.{most_sheet_side};

use crate::window::Window;

/// A tint lowered to that of a source, where the source's mark says that it is not covered.
fn lowered(tint: u16, source: u16, mark: u8) -> u16
    ensures { result ≡ (if mark == 0 then min tint source else tint) }
{
    if mark == 0 { tint.min(source) } else { tint }
}

/// Lowers the places of a window by the tints of a row that are not covered.
pub(crate) fn lower_places(best: &mut [u16], tints: &[u16], marks: &[u8], window: Window)
    requires tints { length tints.now ≤ most_sheet_side }
    requires marks { length marks.now ≡ length tints.now }
    requires span { window.to ≤ length tints.now }
    requires best { places_of window ≤ length best.old }
    ensures { Lowers best.old best.new 0 (places_of window)
        (IsOfPlace tints.now marks.now window.from window.halo) }
{
    let Window { from, to, halo } = window;
    let last = (to + halo).min(tints.len()) + halo - from;
    for i in halo.saturating_sub(from)..last {
        let j = from + i - halo;
        best[i] = lowered(best[i], tints[j], marks[j]);
    }
}

/// The least of a tint and of those to its left and right.
fn least_of(tint: u16, left: u16, right: u16) -> u16
    ensures value { result ≡ min (min tint left) right }
    ensures small { tint < 2 ^ 16 }
{
    tint.min(left).min(right)
}

/// Lowers the columns of a block by the tints that are `step` columns to the left and to the right of each.
pub(crate) fn lower_sides(out: &mut [u16], best: &[u16], window: Window, step: usize)
    requires span { window.to ≤ length out.old }
    requires narrow { length out.old ≤ most_sheet_side }
    requires step { step ≤ window.halo }
    requires best { places_of window ≤ length best.now }
    ensures lowers { Lowers out.old out.new window.from window.to
        (IsOfSide best.now window.from window.halo step) }
    ensures small { (x : ℕ) → window.from ≤ x → x < window.to → slice_index out.old x < 2 ^ 16 }
{
    let Window { from, to, halo } = window;
    for x in from..to {
        let i = x - from + halo;
        out[x] = least_of(out[x], best[i - step], best[i + step]);
    }
}
