// Laws over the definitions: each function does nothing, and its contract is the law.

ghost use Rattle.std.specs.Prelude.{◌≡◌, ◌+◌, ◌<◌, ◌≤◌, ◌^◌, ℕ, All, List, None};
ghost use Rattle.page_model.specs.declared.parts.PageParts.{PageParts};
ghost use Rattle.page_model.specs.declared.parts.Plane.{Plane};
ghost use Rattle.page_model.specs.Columns.{halo};
ghost use Rattle.page_model.specs.Page.{height, width};
ghost use Rattle.sheet_geometry.specs.PageRules.{IsLocal, PageRule};
ghost use Rattle.sheet_geometry.specs.CommonErrors.{cut_fault};
ghost use Rattle.sheet_geometry.specs.Begun.{BeginsEarlier, BeginsWith, MayBegin};
ghost use Rattle.sheet_geometry.specs.Law.{OutlineLaw};
ghost use Rattle.sheet_geometry.specs.Outline.{IsFull, IsOutlineSheet, outline_sheet};
ghost use Rattle.sheet_geometry.specs.StripCores.{StripCoreLaw};
ghost use Rattle.sheet_geometry.specs.StripRows.{HoldRows};
ghost use Rattle.sheet_geometry.specs.declared.spans.Ruler.{Ruler};
ghost use Rattle.sheet_geometry.specs.declared.spans.Span.{Span};
ghost use Rattle.sheet_geometry.specs.Plans.{AreRulers};
ghost use Rattle.sheet_geometry.specs.Sheets.{IsNearSheet, IsSheet};
ghost use Rattle.sheet_geometry.specs.Spans.{IsSpan};
ghost use Rattle.sheet_geometry.specs.Strips.{strip_parts};
ghost use Rattle.sheet_geometry.specs.WindowSheets.{IsCuttable};

/// The checks of a sheet before its tints are read depend on all of it but its tints.
pub fn outline_law()
    ensures { (sheet : PageParts) → OutlineLaw sheet }
{}

/// With a tint for each of its samples, a bare sheet is a sheet.
pub fn full_law()
    ensures { (sheet : PageParts) → IsOutlineSheet (outline_sheet sheet) → All IsFull sheet.planes
        → IsSheet sheet }
{}

/// A sheet without a fault that keeps it from being cut may be cut.
pub fn cuttable_law()
    ensures { (sheet : PageParts) → IsSheet sheet → cut_fault sheet ≡ None → width sheet < 2 ^ 30
        → height sheet < 2 ^ 30 → IsCuttable sheet }
{}

/// For each bare sheet there is a sheet, whatever its planes begin with.
pub fn some_sheet_law()
    ensures { (outline : PageParts) (tints : ℕ → List ℕ) → IsOutlineSheet outline → outline_sheet outline ≡ outline
        → MayBegin outline tints → (sheet : PageParts) × BeginsWith outline tints sheet }
{}

/// A sheet that begins with some tints begins with each prefix of them.
pub fn begins_earlier_law()
    ensures { BeginsEarlier }
{}

/// Planes that have the rows of a strip are those of the strip as a sheet.
pub fn strip_rows_law()
    ensures { (sheet : PageParts) (row : Span) (planes : List Plane) → IsSheet sheet
        → row.from + row.wide ≤ height sheet → HoldRows sheet row planes
        → planes ≡ (strip_parts sheet row).planes }
{}

/// The rows of a strip's core, worked on in windows of the strip, are rows of the sheet.
pub fn strip_core_law()
    ensures { (near : ℕ) (rule : PageRule) (sheet : PageParts) (across down : Ruler) (at : ℕ)
        (row : Span) → IsLocal rule → halo (rule.reach sheet) ≤ near → IsSheet sheet
        → IsNearSheet sheet → AreRulers near sheet across down → IsSpan down at row
        → StripCoreLaw near rule sheet across down at row }
{}
