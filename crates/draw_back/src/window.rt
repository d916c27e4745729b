// Blocks of a row, and the columns that are looked at around them.

ghost use Rattle.std.specs.Prelude.{◌≡◌, ◌+◌, ◌≤◌};
ghost use Rattle.page_model.specs.Limits.{most_reach};

use crate::reach::Reach;

/// The columns beside a block are rounded up to so many, for vectors.
const LANES: u32 = 8;

/// The columns of a block: at most 32.
#[derive(Clone, Copy, Drop)]
pub(crate) struct Span {
    pub(crate) from: usize,
    pub(crate) to: usize,
    ghost ordered: { from ≤ to },
    ghost short: { to ≤ from + 32 },
}

/// A place for each column of a block, and for `halo` columns to both sides of it, on the page or not.
#[derive(Clone, Copy, Drop)]
pub(crate) struct Window {
    pub(crate) from: usize,
    pub(crate) to: usize,
    pub(crate) halo: usize,
    ghost ordered: { from ≤ to },
    ghost short: { to ≤ from + 32 },
    ghost reach: { halo ≤ most_reach },
}

/// The window around a block, as far as the reach goes or a little farther.
pub(crate) fn window_of(span: Span, reach: Reach) -> Window
    ensures from { result.from ≡ span.from }
    ensures to { result.to ≡ span.to }
    ensures halo { reach.radius ≤ result.halo }
{
    let Span { from, to } = span;
    Window {
        from,
        to,
        halo: ((reach.radius + (LANES - 1)) / LANES * LANES) as usize,
    }
}
