// Laws over the definitions: each function does nothing, and its contract is the law.

ghost use Rattle.std.specs.Prelude.{◌+◌, ◌<◌, ◌≤◌, ℕ, All, List};
ghost use Rattle.lists.specs.Words.{square};
ghost use Rattle.page_model.specs.declared.parts.PageParts.{PageParts};
ghost use Rattle.sheet_geometry.specs.declared.cuts.Cut.{Cut};
ghost use Rattle.sheet_geometry.specs.Windows.{IsCut};
ghost use Rattle.keepaway.specs.declared.parts.RichBlack.{RichBlack};
ghost use Rattle.keepaway.specs.Keepaway.{near_limit};
ghost use Rattle.sheet_geometry.specs.PageRules.{IsLocal};
ghost use Rattle.keep_windows.specs.KeepRules.{under_black, under_colour};
ghost use Rattle.keep_windows.specs.KeepWindows.{KeepWindowLaw};
ghost use Rattle.keep_windows.specs.UnderWindows.{UnderWindowLaw};
ghost use Rattle.underprint.specs.declared.parts.White.{White};
ghost use Rattle.underprint.specs.Underprint.{followed};

/// A window of a sheet has its sheet's cover and its sheet's new tints, but for a halo of the width and one pixel along
/// those borders that are not the sheet's.
pub fn keep_window_law()
    ensures { (sheet : PageParts) (cut : Cut) (rich : RichBlack) (radius : ℕ) → IsCut sheet cut
        → near_limit rich.width sheet.resolution < square (radius + 1)
        → KeepWindowLaw sheet cut rich radius }
{}

/// A window of a sheet has its sheet's cover under colour and its sheet's new tints of underprints, but for a halo of
/// three widths along those borders that are not the sheet's: as far as ink is followed, and at least one pixel.
pub fn under_window_law()
    ensures { (sheet : PageParts) (cut : Cut) (whites : List White) (halo : ℕ) → IsCut sheet cut → 1 ≤ halo
        → All (λ (white : White). followed white.width sheet.resolution ≤ halo) whites
        → UnderWindowLaw sheet cut whites halo }
{}

/// Keepaway is a local rule: under black with a halo of the width and one pixel, under colour with one of three widths.
pub fn keep_rules_law()
    ensures black { (rich : RichBlack) → IsLocal (under_black rich) }
    ensures colour { (whites : List White) → IsLocal (under_colour whites) }
{}
