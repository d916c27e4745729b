// A block of columns of one row: its pixels lowered by all sources, and those restored that stay.

ghost use Rattle.std.specs.Prelude.{◌≡◌, ◌<◌, ◌≤◌, ◌==◌, ℕ, length, slice_index, if◌then◌else◌};
ghost use Rattle.draw_back.specs.Fields.{entry, kept};

use crate::disk::lower_by_field;
use crate::edge::has_edge;
use crate::field::Field;
use crate::reach::Reach;
use crate::window::Span;

/// Puts the old tint back into each column whose mark is not 2.
fn restore(out: &mut [u16], tints: &[u16], marks: &[u8], span: Span)
    requires tints { length tints.now ≡ length out.old }
    requires marks { length marks.now ≡ length out.old }
    requires span { span.to ≤ length out.old }
    ensures block { (x : ℕ) → span.from ≤ x → x < span.to → slice_index out.new x
        ≡ (if slice_index marks.now x == 2
        then slice_index out.old x else slice_index tints.now x) }
    ensures before { (x : ℕ) → x < span.from → slice_index out.new x ≡ slice_index out.old x }
    ensures past { (x : ℕ) → span.to ≤ x → slice_index out.new x ≡ slice_index out.old x }
{
    for x in span.from..span.to {
        out[x] = if marks[x] == 2 { out[x] } else { tints[x] };
    }
}

/// Writes the new tints of the columns of row y, where the old ones stand.
pub(crate) fn draw_block(field: &Field, reach: Reach, y: usize, span: Span, out: &mut [u16])
    requires row { y < field.now.tall }
    requires out { length out.old ≡ field.now.wide }
    requires span { span.to ≤ field.now.wide }
    requires old { (x : ℕ) → span.from ≤ x → x < span.to
        → slice_index out.old x ≡ entry field.now.tints field.now.wide x y }
    ensures block { (x : ℕ) → span.from ≤ x → x < span.to
        → slice_index out.new x ≡ kept field.now reach.limit x y }
    ensures before { (x : ℕ) → x < span.from → slice_index out.new x ≡ slice_index out.old x }
    ensures past { (x : ℕ) → span.to ≤ x → slice_index out.new x ≡ slice_index out.old x }
{
    if has_edge(field, reach, y, span) {
        lower_by_field(field, reach, y, span, out);
        restore(out, field.tints(y), field.marks(y), span);
    }
}
