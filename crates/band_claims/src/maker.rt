ghost use Rattle.std.specs.Prelude.{◌≡◌, ℕ, ◌<◌, Some, true};
ghost use Rattle.band_claims.specs.declared.table_key.TableKey.{TableKey};
ghost use Rattle.band_claims.specs.Seating.{Seats};
ghost use Rattle.band_claims.specs.TableKeys.{shape_of};
ghost use Rattle.band_claims.specs.Views.{Knows};
ghost use Rattle.band_core.specs.Needs.{is_need};
ghost use Rattle.page_model.specs.Bands.{pieces_of};
ghost use Rattle.band_claims.specs.Filled.{filled_to};

use crate::{Pass, Shared};
use page_model::page::Page;

/// A maker of pieces: it fills the cells of a piece, from the page and the cells of the piece's needs, and takes no
/// memory for it.
pub trait Maker {
    /// Whether the maker was made for a table's page and bands.
    ghost serves: { Self → TableKey → Type 0 };

    /// How much memory the maker has, as far as it is seen.
    ghost Workspace: { Type 0 };

    ghost workspace: { Self → Self.Workspace };

    /// Fills all cells of the piece that the pass holds.
    fn fill(&mut self, page: &Page, shared: &Shared, pass: &mut Pass, piece: u32)
        requires page { page.now ≡ shared.now.table_key.page.value }
        requires serves { serves self.old shared.now.table_key }
        requires pass { Seats shared.now pass.old }
        requires piece { piece < pieces_of shared.now.table_key.layout.bands }
        requires stored { pass.old.view.stored ≡ Some piece }
        requires none_filled { pass.old.view.filled ≡ 0 }
        requires known { (n : ℕ) → is_need shared.now.table_key.layout.bands piece n ≡ true
            → Knows pass.old.view n }
        ensures serves { serves self.new shared.now.table_key }
        ensures pass { Seats shared.now pass.new }
        ensures filled { pass.new.view
            ≡ filled_to ((shape_of shared.now.table_key).size piece) pass.old.view }
        ensures workspace { Self.workspace self.new ≡ Self.workspace self.old };
}
