// Where a cover ends near a block of columns: elsewhere nothing has to be looked at.

ghost use Rattle.std.specs.Prelude.{◌≡◌, ◌≢◌, ◌+◌, ◌-◌, ◌<◌, ◌≤◌, ℕ, false, length, slice_index};
ghost use Rattle.draw_back.specs.Drawn.{drawn};
ghost use Rattle.draw_back.specs.Fields.{entry, scene_of};

use crate::field::Field;
use crate::reach::Reach;
use crate::window::Span;

/// Whether some of the entries `from..to` is this one.
fn holds(list: &[u8], from: usize, to: usize, value: u8) -> bool
    requires { to ≤ length list.now }
    ensures { result ≡ false → (x : ℕ) → from ≤ x → x < to → slice_index list.now x ≢ value }
{
    let mut found = false;
    for x in from..to {
        found |= list[x] == value;
    }
    found
}

/// Whether some of the pixels `from..to` may change and has ink.
fn may_change(tints: &[u16], marks: &[u8], from: usize, to: usize) -> bool
    requires tints { to ≤ length tints.now }
    requires marks { to ≤ length marks.now }
    ensures { result ≡ false → (x : ℕ) → from ≤ x → x < to → slice_index marks.now x ≡ 2
        → slice_index tints.now x ≡ 0 }
{
    let mut found = false;
    for x in from..to {
        found |= (marks[x] == 2) & (tints[x] > 0);
    }
    found
}

/// Whether some pixel near the block is not covered: one within the reach by its column and by its row.
fn is_free_near(field: &Field, reach: Reach, y: usize, span: Span) -> bool
    requires row { y < field.now.tall }
    requires span { span.to ≤ field.now.wide }
    ensures { result ≡ false → (j k : ℕ) → j < field.now.wide → k < field.now.tall
        → span.from - reach.radius ≤ j → j < span.to + reach.radius → y - reach.radius ≤ k
        → k ≤ y + reach.radius → entry field.now.marks field.now.wide j k ≢ 0 }
{
    let radius = reach.radius as usize;
    let height = field.height();
    let last = (y + radius + 1).min(height);
    let width = field.width();
    let from = span.from.saturating_sub(radius);
    let to = (span.to + radius).min(width);
    for k in y.saturating_sub(radius)..last {
        if holds(field.marks(k), from, to, 0) {
            return true;
        }
    }
    false
}

/// Whether some tint of the block can change. Where it says no, none does.
pub(crate) fn has_edge(field: &Field, reach: Reach, y: usize, span: Span) -> bool
    requires row { y < field.now.tall }
    requires span { span.to ≤ field.now.wide }
    ensures { result ≡ false → (x : ℕ) → span.from ≤ x → x < span.to
        → entry field.now.marks field.now.wide x y ≡ 2
        → drawn (scene_of field.now reach.limit) x y ≡ entry field.now.tints field.now.wide x y }
{
    may_change(field.tints(y), field.marks(y), span.from, span.to)
        && is_free_near(field, reach, y, span)
}
