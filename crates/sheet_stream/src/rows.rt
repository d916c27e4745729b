// The rows of a sheet's strips, one strip after the other.

ghost use Rattle.std.specs.Prelude.{◌≡◌, ◌<◌};
ghost use Rattle.sheet_stream.specs.Going.{IsNextRow, IsProgress, IsStripRow, core_top, gone_on};
ghost use Rattle.sheet_geometry.specs.Spans.{IsEvenRuler};

use sheet_geometry::spans::{Ruler, Span, even_span_at};

/// How far a sheet was read, in rows from its top.
#[derive(Clone, Copy, Drop)]
pub struct Progress {
    /// The first row of the next strip's core: the rows above it are finished, or in the cores of strips that were
    /// read.
    pub at: u32,
    /// The first row that is in memory.
    pub from: u32,
    /// The first row that was not read.
    pub read: u32,
}

/// The rows of the next strip, as many as each strip has. None of them is above the rows in memory: a window begins no
/// higher than the one before it.
pub fn next_row(down: &Ruler, progress: Progress) -> Span
    requires ruler { IsEvenRuler down.now }
    requires progress { IsProgress down.now progress }
    requires more { progress.at < down.now.side }
    ensures next { IsNextRow down.now progress result }
    ensures strip { IsStripRow down.now result }
{
    let span = even_span_at(down, progress.at);
    let from = span.from.max(progress.from);
    Span {
        from,
        wide: span.wide,
        skip: progress.at - from,
        core: span.core,
    }
}

/// How far the sheet was read once the strip of these rows is.
pub fn progress_after(down: &Ruler, row: &Span) -> Progress
    requires { IsStripRow down.now row.now }
    ensures value { result ≡ gone_on row.now }
    ensures is { IsProgress down.now result }
    ensures more { core_top row.now < result.at }
{
    let _side = down.side;
    Progress {
        at: row.from + row.skip + row.core,
        from: row.from,
        read: row.from + row.wide,
    }
}
