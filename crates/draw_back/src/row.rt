ghost use Rattle.std.specs.Prelude.{◌≡◌, ◌≢◌, ◌+◌, ◌*◌, ◌<◌, ◌≤◌, ℕ, length, slice_index};
ghost use Rattle.page_model.specs.Limits.{most_sheet_side};
ghost use Rattle.draw_back.specs.Fields.{entry, kept};

use crate::block::draw_block;
use crate::field::Field;
use crate::reach::Reach;
use crate::window::Span;

/// The columns of a block.
const BLOCK: usize = 32;

/// Block b of a row.
fn span_of(b: usize, width: usize) -> Span
    requires inside { b * 32 < width }
    requires narrow { width ≤ most_sheet_side }
    ensures from { result.from ≡ b * 32 }
    ensures to { result.to ≤ width }
    ensures most { result.to ≤ (b + 1) * 32 }
    ensures whole { (x : ℕ) → x < (b + 1) * 32 → x < width → x < result.to }
{
    let from = b * BLOCK;
    Span {
        from,
        to: (from + BLOCK).min(width),
    }
}

/// Writes the new tints of row y: each pixel that may change has the least of its own tint and of those of the pixels
/// near by that are not covered; the others keep theirs.
pub fn draw_row(field: &Field, reach: Reach, y: usize, out: &mut [u16])
    requires row { y < field.now.tall }
    requires out { length out.old ≡ field.now.wide }
    ensures { (x : ℕ) → x < field.now.wide
        → slice_index out.new x ≡ kept field.now reach.limit x y }
{
    let width = field.width();
    out.copy_from_slice(field.tints(y));
    for b in 0..width.div_ceil(BLOCK) {
        draw_block(field, reach, y, span_of(b, width), out);
    }
}

/// Writes the new tint of column x of row y, where the old one stands; all else is as it was.
pub fn draw_column(field: &Field, reach: Reach, y: usize, x: usize, out: &mut [u16])
    requires row { y < field.now.tall }
    requires column { x < field.now.wide }
    requires out { length out.old ≡ field.now.wide }
    requires old { slice_index out.old x ≡ entry field.now.tints field.now.wide x y }
    ensures there { slice_index out.new x ≡ kept field.now reach.limit x y }
    ensures others { (i : ℕ) → i ≢ x → slice_index out.new i ≡ slice_index out.old i }
{
    let width = field.width();
    let span = Span {
        from: x,
        to: (x + 1).min(width),
    };
    draw_block(field, reach, y, span, out);
}
