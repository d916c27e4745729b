// Laws over the definitions: each function does nothing, and its contract is the law.

ghost use Rattle.std.specs.Prelude.{◌*◌, ◌≤◌, ℕ, List, length};
ghost use Rattle.page_model.specs.declared.parts.PageParts.{PageParts};
ghost use Rattle.page_model.specs.Conditions.{IsPage, IsParts};
ghost use Rattle.page_model.specs.Limits.{most_samples, most_side};
ghost use Rattle.page_model.specs.Page.{height, plates, width};
ghost use Rattle.sheet_geometry.specs.declared.cuts.Cut.{Cut};
ghost use Rattle.page_model.specs.Columns.{halo};
ghost use Rattle.page_model.specs.Reach.{page_reach};
ghost use Rattle.sheet_geometry.specs.Areas.{CountsBySamples, traps};
ghost use Rattle.sheet_geometry.specs.PageRules.{IsLocal, PageRule};
ghost use Rattle.sheet_geometry.specs.Covers.{CoverLaw, IsCover};
ghost use Rattle.sheet_geometry.specs.declared.spans.Ruler.{Ruler};
ghost use Rattle.sheet_geometry.specs.Plans.{AreRulers, PlanLaw};
ghost use Rattle.sheet_geometry.specs.Sheets.{IsNearSheet, IsSheet, IsSheetParts, IsSmall};
ghost use Rattle.sheet_geometry.specs.declared.spans.Span.{Span};
ghost use Rattle.sheet_geometry.specs.Spans.{IsSpan};
ghost use Rattle.sheet_geometry.specs.Strips.{StripLaw};
ghost use Rattle.sheet_geometry.specs.Tiles.{IsTile, IsTiling, Strip, Tile, TileLaw, TilingLaw, TrapTilingLaw};
ghost use Rattle.sheet_geometry.specs.Whole.{WholeLaw};
ghost use Rattle.sheet_geometry.specs.WindowLaw.{WindowLaw};
ghost use Rattle.sheet_geometry.specs.Windows.{IsCut, window};

/// A window of a sheet has the sheet's tints, zones, deciding edges and marks. Each of its samples that is at least the
/// reach away from those borders of the window that are not the sheet's is trapped as on the sheet, with the same new
/// tints.
pub fn window_law()
    ensures { (sheet : PageParts) (cut : Cut) → IsCut sheet cut → WindowLaw sheet cut }
{}

/// A window within the limits of a page is a page, if the sheet keeps all other ranges of a page, and its vertices are
/// in range from each of its corners.
pub fn window_page_law()
    ensures { (sheet : PageParts) (cut : Cut) → IsSheet sheet → IsNearSheet sheet
        → IsCut sheet cut → IsSmall sheet cut → IsPage (window sheet cut) }
{}

/// All parts of a page make a sheet as well.
pub fn parts_law()
    ensures { (page : PageParts) → IsParts page → IsSheetParts page }
{}

/// A sheet within the limits of a page is a page.
pub fn page_law()
    ensures { (sheet : PageParts) → IsSheet sheet → width sheet ≤ most_side
        → height sheet ≤ most_side
        → width sheet * height sheet * plates sheet ≤ most_samples → IsPage sheet }
{}

/// Each count of a report is a sum over samples.
pub fn counts_law()
    ensures { (page : PageParts) → 1 ≤ width page → 1 ≤ height page
        → CountsBySamples page }
{}

/// The trapping rule is local: new tints depend on nothing beyond the reach.
pub fn traps_law()
    ensures { IsLocal traps }
{}

/// If the cores of windows tile a sheet, the new tints of each plate are those of the cores, row by row, and what is
/// counted by the rule is the sum of what is counted in the cores.
pub fn tiling_law()
    ensures { (near : ℕ) (rule : PageRule) (sheet : PageParts) (strips : List Strip)
        → IsLocal rule → halo (rule.reach sheet) ≤ near → IsTiling near sheet 0 strips
        → TilingLaw rule sheet strips }
{}

/// If the cores of windows tile a sheet that is trapped, the new tints of each plate are those of the cores, row by row,
/// and each count of the report is the sum of the counts of the cores.
pub fn trap_tiling_law()
    ensures { (sheet : PageParts) (strips : List Strip) → 1 ≤ width sheet → 1 ≤ height sheet
        → IsTiling (halo (page_reach sheet)) sheet 0 strips → TrapTilingLaw sheet strips }
{}

/// If areas lie on a sheet so that each of its samples lies in just one of them, in whatever order and form, each count
/// of the report is the sum of the counts of the areas. The cores of windows are such areas: `tile_law`.
pub fn cover_law()
    ensures { (sheet : PageParts) (areas : List Cut) → 1 ≤ width sheet → 1 ≤ height sheet
        → IsCover sheet areas → CoverLaw sheet areas }
{}

/// The window with all columns and rows of a sheet is the sheet.
pub fn whole_law()
    ensures { (sheet : PageParts) → IsSheet sheet → WholeLaw sheet }
{}

/// What holds in the core of a tile's window holds on the sheet.
pub fn tile_law()
    ensures { (near : ℕ) (rule : PageRule) (sheet : PageParts) (tile : Tile) (x y rows : ℕ)
        → IsLocal rule → halo (rule.reach sheet) ≤ near → IsTile near sheet tile x y rows
        → TileLaw rule sheet tile x y rows }
{}

/// Spans of the columns and of the rows of a sheet, by rulers for it, make tiles, and together a tiling. The tiles are
/// small enough for pages where the rulers are.
pub fn plan_law()
    ensures { (near : ℕ) (sheet : PageParts) (across down : Ruler) → 1 ≤ plates sheet
        → 1 ≤ length sheet.zones → AreRulers near sheet across down
        → PlanLaw near sheet across down }
{}

/// All columns of the rows of a span are a tile of the sheet, and a sheet of their own, which can be cut and trapped in
/// turn.
pub fn strip_law()
    ensures { (near : ℕ) (sheet : PageParts) (across down : Ruler) (at : ℕ) (row : Span)
        → IsSheet sheet → IsNearSheet sheet → AreRulers near sheet across down
        → IsSpan down at row → 1 ≤ width sheet → StripLaw near sheet at row }
{}
