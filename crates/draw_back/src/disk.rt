// A block of columns lowered by all pixels near by that are not covered.
//
// The disk of a pixel is looked at by columns: the farther a column is from the pixel, the fewer of its rows are near.
// So a window keeps the least tint of each column within so many rows of the block's own row, and as the steps to both
// sides grow shorter more rows come into it.

ghost use Rattle.std.specs.Prelude.{◌≡◌, ◌+◌, ◌*◌, ◌<◌, ◌≤◌, ℕ, false, true, length};
ghost use Rattle.draw_back.specs.Fields.{scene_of};
ghost use Rattle.draw_back.specs.Lowers.{Lowers, IsGrown, IsOfRows, IsOfSource, places_of};
ghost use Rattle.lists.specs.Words.{square};
ghost use Rattle.page_model.specs.Limits.{most_reach, most_sheet_side};

use crate::field::Field;
use crate::lower::{lower_places, lower_sides};
use crate::reach::Reach;
use crate::window::{Span, Window, window_of};

/// The places of a window, at most: a block, and the longest reach to both sides.
const PLACES: usize = 32 + 2 * 256;

/// Lowers the window by the row that is h rows above row y.
fn lower_by_above(field: &Field, y: usize, h: usize, window: Window, best: &mut [u16])
    requires row { y < field.now.tall }
    requires span { window.to ≤ field.now.wide }
    requires best { places_of window ≤ length best.old }
    ensures { Lowers best.old best.new 0 (places_of window)
        (IsOfRows field.now window.from window.halo (λ k. k + h ≡ y)) }
{
    let _narrow = field.width();
    if h <= y {
        lower_places(best, field.tints(y - h), field.marks(y - h), window);
    }
}

/// Whether there is a row h rows below row y, other than row y.
fn is_below(y: usize, h: usize, height: usize) -> bool
    requires rows { h ≤ most_reach }
    requires row { y ≤ most_sheet_side }
    ensures yes { result ≡ true → (0 < h) × (y + h < height) }
    ensures no { result ≡ false → 0 < h → height ≤ y + h }
{
    h > 0 && y + h < height
}

/// Lowers the window by the row that is h rows below row y, unless it is row y.
fn lower_by_below(field: &Field, y: usize, h: usize, window: Window, best: &mut [u16])
    requires row { y < field.now.tall }
    requires rows { h ≤ most_reach }
    requires span { window.to ≤ field.now.wide }
    requires best { places_of window ≤ length best.old }
    ensures { Lowers best.old best.new 0 (places_of window)
        (IsOfRows field.now window.from window.halo (λ k. (0 < h) × (k ≡ y + h))) }
{
    let _narrow = field.width();
    if is_below(y, h, field.height()) {
        lower_places(best, field.tints(y + h), field.marks(y + h), window);
    }
}

/// Whether a pixel so many rows and columns away is too far.
fn is_far(reach: Reach, rows: u32, step: u32) -> bool
    requires rows { rows ≤ most_reach }
    requires step { step ≤ most_reach }
    ensures far { result ≡ true → reach.limit < square rows + square step }
    ensures near { result ≡ false → square rows + square step ≤ reach.limit }
{
    reach.limit < rows * rows + step * step
}

/// Lowers the window, which has the rows fewer than `grown` away from row y, by all rows that are near in a column
/// `step` columns away. It returns how far the rows go then.
fn grow(
    field: &Field,
    reach: Reach,
    y: usize,
    window: Window,
    step: u32,
    grown: u32,
    best: &mut [u16],
) -> u32
    requires row { y < field.now.tall }
    requires span { window.to ≤ field.now.wide }
    requires step { step ≤ reach.radius }
    requires begun { grown ≤ reach.radius + 1 }
    requires near { (h : ℕ) → h < grown → square h + square step ≤ reach.limit }
    requires best { IsGrown field.now window y grown best.old }
    ensures best { IsGrown field.now window y result best.new }
    ensures near { (h : ℕ) → h < result → square h + square step ≤ reach.limit }
    ensures far { reach.limit < square result + square step }
    ensures most { result ≤ reach.radius + 1 }
{
    for h in grown..reach.radius + 1 {
        if is_far(reach, h, step) {
            return h;
        }
        lower_by_above(field, y, h as usize, window, best);
        lower_by_below(field, y, h as usize, window, best);
    }
    reach.radius + 1
}

/// Lowers the columns of row y by all sources of the field.
pub(crate) fn lower_by_field(field: &Field, reach: Reach, y: usize, span: Span, out: &mut [u16])
    requires row { y < field.now.tall }
    requires out { length out.old ≡ field.now.wide }
    requires span { span.to ≤ field.now.wide }
    ensures { Lowers out.old out.new span.from span.to
        (IsOfSource (scene_of field.now reach.limit) y field.now.tall) }
{
    let _narrow = field.width();
    let window = window_of(span, reach);
    let mut best = [u16::MAX; PLACES];
    let mut grown = 0;
    for k in 0..reach.radius + 1 {
        let step = reach.radius - k;
        grown = grow(field, reach, y, window, step, grown, &mut best);
        lower_sides(out, &best, window, step as usize);
    }
}
