// Laws over the definitions: each function does nothing, and its contract is the law. Those of runs, of words and of
// boards that are not stuck are proved for any shape by `board_laws`; here they are stated for the pieces of a page.

ghost use Rattle.std.specs.Prelude.{◌≡◌, ◌<◌, ◌≤◌, ◌^◌, ℕ};
ghost use Rattle.page_model.specs.declared.parts.PageParts.{PageParts};
ghost use Rattle.band_core.specs.Layouts.{Layout, IsLayout};
ghost use Rattle.band_core.specs.Places.{cells_of};
ghost use Rattle.band_core.specs.TableShapes.{IsShape};
ghost use Rattle.band_core.specs.Runs.{Halo, RunLaw};
ghost use Rattle.band_core.specs.Stuck.{NeverStuck};
ghost use Rattle.band_core.specs.Laws.{PhaseLaw, ReadsNeedsAlone, CellPacks, CellUnpacks, RowValues, RowsOfPieces};
ghost use Rattle.band_core.specs.Recipe.{recipe};
ghost use Rattle.band_core.specs.Shapes.{shape_of};
ghost use Rattle.band_core.specs.Values.{IsFor, cell};

/// A zone is found at each sample by itself, so a band needs no other band: its zones, made from the page alone, are
/// those of the undivided page.
pub fn zones_law()
    ensures { PhaseLaw 0 }
{}

/// An edge lies between a row and itself or the next one, so a band and the one below it are enough: the band's
/// marks, made from the zones of these two, are those of the undivided page.
pub fn edges_law()
    ensures { PhaseLaw 1 }
{}

/// An edge within reach of a row lies at most half the reach of rows away, cut up to whole rows, and so in a band
/// that is at most these rows, cut up to whole bands, away: the band's answers, made from the marks of these bands,
/// are those of the undivided page.
pub fn columns_law()
    ensures { PhaseLaw 2 }
{}

/// The nearest edge of a sample is the nearest of its row's column answers, or it is out of reach and traps nothing,
/// so the band's own answers are enough: its new tints, made from these and from its zones, are those of the
/// undivided page.
pub fn traps_law()
    ensures { PhaseLaw 3 }
{}

/// On a board that is sound for a page the recipe gives the defined value of each cell of a piece whose needs are all
/// done.
pub fn halo_law()
    ensures { (page : PageParts) (layout : Layout) → IsFor page layout
        → Halo (shape_of layout) (cell page layout) (recipe page layout) }
{}

/// Over every run of a page each board is sound for it, no cell changes once it is filled, and no piece is
/// claimed twice or done twice.
pub fn run_law()
    ensures { (page : PageParts) (layout : Layout) → IsFor page layout
        → RunLaw (shape_of layout) (cell page layout) (recipe page layout) }
{}

/// If no piece is claimed and some piece is not done, then some free piece has all its needs done: work can always go
/// on.
pub fn never_stuck_law()
    ensures { (layout : Layout) → IsLayout layout → NeverStuck (shape_of layout) }
{}

/// The cells of a layout's pieces are in order, and the needs of a piece have lesser numbers than the piece.
pub fn shape_law()
    ensures { (layout : Layout) → IsLayout layout → IsShape (shape_of layout) }
{}

/// The recipe reads the page and the cells of the needs of a cell's piece, and nothing else.
pub fn reads_needs_alone_law()
    ensures { (page : PageParts) (layout : Layout) → IsFor page layout
        → ReadsNeedsAlone page layout }
{}

/// The values of a cell of a piece, packed, are that cell.
pub fn cell_packs_law()
    ensures { (page : PageParts) (layout : Layout) → IsFor page layout → CellPacks page layout }
{}

/// Unpacking a cell gives each of its values.
pub fn cell_unpacks_law()
    ensures { (page : PageParts) (layout : Layout) → IsFor page layout → CellUnpacks page layout }
{}

/// No cell is 0, and each fits a word.
pub fn cell_word_law()
    ensures { (page : PageParts) (layout : Layout) → IsFor page layout → (j : ℕ)
        → j < cells_of layout → (1 ≤ cell page layout j) × (cell page layout j < 2 ^ 63) }
{}

/// What is at a place of a row in each phase, and which value of which piece it is.
pub fn rows_law()
    ensures values { (page : PageParts) (y o : ℕ) → RowValues page y o }
    ensures pieces { (page : PageParts) (layout : Layout) → IsFor page layout
        → RowsOfPieces page layout }
{}
