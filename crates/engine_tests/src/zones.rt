// The zones and the marks of a whole page, by the makers that the engine goes by.

ghost use Rattle.std.specs.Prelude.{◌≡◌, length};
ghost use Rattle.row_values.specs.Workspace.{Serves};
ghost use Rattle.page_model.specs.Page.{samples};
ghost use Rattle.strip_engine.specs.Whole.{sample_zones};

use crate::grid::samples_of;
use crate::memory::value_of;
use lists::memory::vec_of;
use page_model::page::Page;
use row_values::{RowBuffers, Rows, make_marks, make_zones};
use std::alloc::Global;
use std::process::Abort;

/// Writes the zone of each sample, row by row.
fn fill_zones(page: &Page, out: &mut [u8], workspace: &mut RowBuffers)
    requires out { length out.old ≡ samples page.now }
    requires workspace { Serves workspace.old page.now }
    ensures { out.new ≡ sample_zones page.now }
{
    let count = page.height();
    make_zones(page, Rows { first: 0, count }, out, workspace);
}

/// The zone of each sample, row by row.
pub fn zones_of(rt: &impl Abort, alloc: Global, page: &Page) -> Vec<u8>
    ensures { result.items ≡ sample_zones page.now }
{
    let mut workspace = value_of(rt, RowBuffers::new(alloc, page));
    let mut zones = value_of(rt, vec_of(alloc, 0u8, samples_of(page)));
    fill_zones(page, &mut zones, &mut workspace);
    zones
}

/// Writes the marks of each sample, row by row.
fn fill_marks(page: &Page, zones: &[u8], out: &mut [u8])
    requires zones { zones.now ≡ sample_zones page.now }
    requires out { length out.old ≡ samples page.now }
{
    let rows = Rows {
        first: 0,
        count: page.height(),
    };
    make_marks(page, rows, rows, zones, out);
}

/// The marks of each sample, row by row.
pub fn marks_of(rt: &impl Abort, alloc: Global, page: &Page, zones: &[u8]) -> Vec<u8>
    requires { zones.now ≡ sample_zones page.now }
{
    let mut marks = value_of(rt, vec_of(alloc, 0u8, samples_of(page)));
    fill_marks(page, zones, &mut marks);
    marks
}
