ghost use Rattle.std.specs.Prelude.{◌≡◌, length};
ghost use Rattle.row_values.specs.Workspace.{Serves};
ghost use Rattle.page_model.specs.Page.{samples};
ghost use Rattle.strip_engine.specs.Whole.{sample_zones};

use page_model::page::Page;
use row_values::{RowBuffers, Rows, make_zones};

/// Writes the zone of each sample, row by row.
pub fn fill_zones(page: &Page, out: &mut [u8], workspace: &mut RowBuffers)
    requires out { length out.old ≡ samples page.now }
    requires workspace { Serves workspace.old page.now }
    ensures zones { out.new ≡ sample_zones page.now }
    ensures workspace { workspace.new ≡ workspace.old }
{
    let count = page.height();
    make_zones(page, Rows { first: 0, count }, out, workspace);
}
