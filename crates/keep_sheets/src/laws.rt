// Laws over the definitions: each function does nothing, and its contract is the law.

ghost use Rattle.std.specs.Prelude.{ℕ, List};
ghost use Rattle.page_model.specs.declared.parts.PageParts.{PageParts};
ghost use Rattle.sheet_geometry.specs.declared.cuts.Cut.{Cut};
ghost use Rattle.sheet_geometry.specs.Tiles.{IsTile, Tile, TileLaw};
ghost use Rattle.sheet_geometry.specs.Windows.{IsCut};
ghost use Rattle.keepaway.specs.declared.parts.RichBlack.{RichBlack};
ghost use Rattle.keepaway.specs.Rows.{AreMarks as AreMarksUnderBlack};
ghost use Rattle.underprint.specs.declared.parts.White.{White};
ghost use Rattle.underprint.specs.Lists.{AreMarks as AreMarksUnderColour};
ghost use Rattle.keep_pages.specs.declared.uses.KeepUse.{KeepUse};
ghost use Rattle.keep_pages.specs.declared.uses.KeepUse.TheVariants.{UnderBlack, UnderColour};
ghost use Rattle.keep_sheets.specs.KeepRule.{KeepHaloLaw, KeepRuleLaw, keep_rule};
ghost use Rattle.keep_sheets.specs.KeepSheets.{HasHalo, IsHalo, KeepCoreLaw};
ghost use Rattle.keep_sheets.specs.KeepSums.{AreMarks};

/// By a window with the halo around it a core is covered as on the sheet and has the sheet's new tints and counts.
pub fn keep_core_law()
    ensures { (sheet : PageParts) (cut core : Cut) (used : KeepUse) (halo : ℕ) → IsCut sheet cut
        → IsHalo sheet.resolution used halo → HasHalo sheet cut core halo
        → KeepCoreLaw sheet cut core used }
{}

/// The marks of both kinds of keepaway are 0 where a pixel is not covered, and not 0 where it is.
pub fn marks_law()
    ensures black { (page : PageParts) (rich : RichBlack) (marks : List ℕ)
        → AreMarksUnderBlack page rich.limit marks → AreMarks page (UnderBlack rich) marks }
    ensures colour { (page : PageParts) (whites : List White) (marks : List ℕ)
        → AreMarksUnderColour page whites marks → AreMarks page (UnderColour whites) marks }
{}

/// Keepaway of either use is a local rule. Its new tints and planes, and what is counted by it, are those of a page
/// that is drawn back.
pub fn keep_rule_law()
    ensures { (used : KeepUse) → KeepRuleLaw used }
{}

/// The least halo is that of the rule's reach.
pub fn keep_halo_law()
    ensures { (page : PageParts) (used : KeepUse) → KeepHaloLaw page used }
{}

/// What a tile's window has in its core by keepaway, with a halo that is enough, is so on the sheet: the new tints and
/// what is counted.
pub fn keep_tile_law()
    ensures { (near : ℕ) (used : KeepUse) (sheet : PageParts) (tile : Tile) (x y rows : ℕ)
        → IsHalo sheet.resolution used near → IsTile near sheet tile x y rows
        → TileLaw (keep_rule used) sheet tile x y rows }
{}
