// All of a page's work at a table.
ghost use Rattle.std.specs.Prelude.{◌≡◌, ℕ, ◌<◌, IsTrue, None, false};
ghost use Rattle.band_claims.specs.Seating.{Seats};
ghost use Rattle.band_claims.specs.Shares.{IsWhole};
ghost use Rattle.band_claims.specs.Views.{Knows, Looks};
ghost use Rattle.band_pieces.specs.Finished.{IsFinished};
ghost use Rattle.band_pieces.specs.Undone.{FindsUndone};
ghost use Rattle.band_claims.specs.Accounts.{IsAccounted};
ghost use Rattle.page_model.specs.Bands.{pieces_of};

use crate::alone::finish_alone;
use crate::scratch::Scratch;
use band_claims::{Closed, Pass, Reader, Shared};
use band_core::needs::pieces;
use page_model::page::Page;

/// Whether all pieces are done. If so the reader knows each of them afterwards; if not, `looked` ends with a piece that
/// was not done.
pub fn are_all_done(shared: &Shared, reader: &mut Reader) -> bool
    requires reader { Seats shared.now reader.old }
    ensures reader { Seats shared.now reader.new }
    ensures looks { Looks reader.old.view reader.new.view }
    ensures known { IsTrue result → (i : ℕ) → i < pieces_of shared.now.table_key.layout.bands
        → Knows reader.new.view i }
    ensures undone { result ≡ false
        → FindsUndone (pieces_of shared.now.table_key.layout.bands)
        reader.old.view reader.new.view }
{
    for piece in 0..pieces(shared.bands()) {
        if !shared.sees_done(reader, piece) {
            return false;
        }
    }
    true
}

/// Closes the table, whose passes have all been joined into this one, so that it has all shares, and which holds
/// nothing, and makes what the workers left undone. It allocates nothing and waits for no thread.
pub fn finish_table(shared: Shared, pass: Pass, page: &Page, scratch: &mut Scratch) -> Closed
    requires page { page.now ≡ shared.table_key.page.value }
    requires scratch { scratch.old.layout ≡ shared.table_key.layout }
    requires pass { Seats shared pass }
    requires whole { IsWhole pass.view.share }
    requires idle { pass.view.stored ≡ None }
    requires accounted { (i : ℕ) → i < pieces_of shared.table_key.layout.bands
        → IsAccounted shared.table_key.layout.bands pass.view i }
    ensures scratch { scratch.new ≡ scratch.old }
    ensures table_key { result.table_key ≡ shared.table_key }
    ensures workspace { result.workspace ≡ shared.workspace }
    ensures finished { IsFinished page.now result }
{
    let _fits = shared.bands();
    let mut closed = shared.close_all(pass);
    finish_alone(&mut closed, page, scratch);
    closed
}
