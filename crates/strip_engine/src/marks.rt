// The marks of the page's samples: whether the edges to their right and below them decide.

ghost use Rattle.std.specs.Prelude.{◌≡◌, ◌<◌, ◌≤◌, ◌+◌, ◌*◌, ◌-◌, length};
ghost use Rattle.row_values.specs.Rows.{HoldsMarks};
ghost use Rattle.page_model.specs.Page.{height, samples};
ghost use Rattle.page_model.specs.Zones.{AreZones};
ghost use Rattle.strip_engine.specs.Rows.{AreRows};
ghost use Rattle.page_tally.specs.Standing.{AreMarks};
ghost use Rattle.strip_engine.specs.Whole.{sample_marks, sample_zones};
ghost use Rattle.page_model.specs.Limits.{most_side};

use page_model::page::Page;
use row_values::{Rows, make_marks};

/// The rows `from..to` of a list with `width` items for each row.
fn rows_between<'a>(all: &'a [u8], width: u32, from: u32, to: u32) -> &'a [u8]
    requires narrow { width ≤ most_side }
    requires order { from ≤ to }
    requires low { to ≤ most_side }
    requires inside { from * width + (to - from) * width ≤ length all.now }
    ensures { AreRows width from to all.now result.now }
{
    let start = from as usize * width as usize;
    let long = (to - from) as usize * width as usize;
    &all[start..start + long]
}

/// The zones of row y, out of those of the page.
pub fn zones_of_row<'a>(page: &Page, zones: &'a [u8], y: u32) -> &'a [u8]
    requires zones { zones.now ≡ sample_zones page.now }
    requires row { y < height page.now }
    ensures { AreZones page.now y result.now }
{
    let _valid = page.plates();
    rows_between(zones, page.width(), y, y + 1)
}

/// The marks of row y, out of those of the page.
pub fn marks_of_row<'a>(page: &Page, marks: &'a [u8], y: u32) -> &'a [u8]
    requires marks { marks.now ≡ sample_marks page.now }
    requires row { y < height page.now }
    ensures { AreMarks page.now y result.now }
{
    let _valid = page.plates();
    rows_between(marks, page.width(), y, y + 1)
}

/// Writes the marks of all samples, row by row.
pub fn fill_marks(page: &Page, zones: &[u8], out: &mut [u8])
    requires zones { zones.now ≡ sample_zones page.now }
    requires out { length out.old ≡ samples page.now }
    ensures { out.new ≡ sample_marks page.now }
{
    let rows = Rows {
        first: 0,
        count: page.height(),
    };
    make_marks(page, rows, rows, zones, out);
}

/// The marks of the rows `stored`, out of those of the page.
pub fn marks_between<'a>(page: &Page, marks: &'a [u8], stored: Rows) -> &'a [u8]
    requires marks { marks.now ≡ sample_marks page.now }
    requires some { 1 ≤ stored.count }
    requires inside { stored.first + stored.count ≤ height page.now }
    ensures { HoldsMarks page.now stored result.now }
{
    let _valid = page.plates();
    rows_between(
        marks,
        page.width(),
        stored.first,
        stored.first + stored.count,
    )
}
