// The tile of a sheet: its window, a page, is drawn back, and the counts of its core are added.

ghost use Rattle.std.specs.Prelude.{◌≡◌, ◌*◌};
ghost use Rattle.page_tally.specs.Shapes.{shape_of};
ghost use Rattle.sheet_geometry.specs.Covers.{IsOnSheet};
ghost use Rattle.keep_pages.specs.KeptPages.{Reaches, kept_planes};
ghost use Rattle.keep_sheets.specs.KeepSums.{AddsKept, HasRoom};
ghost use Rattle.keep_sheets.specs.KeepWorkspaces.{IsWorkspaceFor};

use crate::core_counts::add_core;
use crate::counts::KeepCounts;
use crate::workspace::KeepWorkspace;
use keep_pages::KeepUse;
use page_model::page::Page;
use sheet_geometry::cuts::Cut;

/// Draws the page of a tile's window back with buffers for pages of its shape, and adds the counts of its core to those
/// of its sheet. It allocates nothing. `workspace.planes` are then the page's new planes; in the core they have the
/// sheet's new tints, if the window has the halo around it.
pub fn keep_tile_in(
    page: &Page,
    used: &KeepUse,
    core: &Cut,
    workspace: &mut KeepWorkspace,
    counts: &mut KeepCounts,
)
    requires reach { Reaches page.now used.now }
    requires core { IsOnSheet page.now core.now }
    requires workspace { IsWorkspaceFor (shape_of page.now) used.now workspace.old }
    requires room { HasRoom page.now (core.now.width * core.now.height) counts.old }
    ensures workspace { IsWorkspaceFor (shape_of page.now) used.now workspace.new }
    ensures planes { workspace.new.planes ≡ kept_planes page.now used.now }
    ensures counts { AddsKept page.now used.now core.now counts.old counts.new }
{
    workspace.keep(page, used);
    let marks = workspace.cover.marks();
    add_core(page, used, marks, workspace.planes.as_slice(), core, counts);
}
