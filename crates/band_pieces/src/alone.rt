// What the workers left undone, made by one thread.
ghost use Rattle.std.specs.Prelude.{◌≡◌, ℕ, ◌+◌, ◌<◌, ◌≤◌, ◌==◌, ◌&&◌, not, nat_lt, []};
ghost use Rattle.band_core.specs.Runs.{Sound};
ghost use Rattle.band_core.specs.TableWords.{AreWords, board_of};
ghost use Rattle.band_claims.specs.Rule.{cell_word, piece_word};
ghost use Rattle.band_claims.specs.TableKeys.{cell, shape_of};
ghost use Rattle.band_claims.specs.Views.{one_if, times};
ghost use Rattle.band_pieces.specs.Fills.{DoneHaveCells, FinishesPiece};
ghost use Rattle.page_model.specs.Bands.{pieces_of};

use crate::scratch::Scratch;
use crate::sinks::Alone;
use band_claims::Closed;
use band_core::needs::pieces;
use page_model::page::Page;

/// Makes a piece that was left, whose needs are among the pieces before it.
fn finish_piece(closed: &mut Closed, page: &Page, scratch: &mut Scratch, piece: u32)
    requires page { page.now ≡ closed.old.table_key.page.value }
    requires scratch { scratch.old.layout ≡ closed.old.table_key.layout }
    requires piece { piece < pieces_of closed.old.table_key.layout.bands }
    requires earlier { (i : ℕ) → i < piece → piece_word closed.old.words i ≡ 2 }
    requires cells { DoneHaveCells closed.old }
    ensures scratch { scratch.new ≡ scratch.old }
    ensures finished { FinishesPiece closed.old closed.new piece }
{
    let _whole = closed.table_key();
    if closed.state(piece) == 2 {
        return;
    }
    scratch.fill_piece(&Alone, closed, page, piece);
    closed.set_done(piece);
}

/// Makes each piece that is not done, in order, from the words of the closed table alone, and appends it to the list of
/// the pieces that were made alone. The table may be closed at any moment; its page and bands are those that the
/// scratch was made for. It allocates nothing and waits for no thread.
pub fn finish_alone(closed: &mut Closed, page: &Page, scratch: &mut Scratch)
    requires page { page.now ≡ closed.old.table_key.page.value }
    requires scratch { scratch.old.layout ≡ closed.old.table_key.layout }
    requires words { AreWords (shape_of closed.old.table_key) closed.old.words }
    requires sound { Sound (shape_of closed.old.table_key) (cell closed.old.table_key)
        (board_of (shape_of closed.old.table_key) closed.old.words) }
    requires published { (i : ℕ) → 1 ≤ times i closed.old.published
        → piece_word closed.old.words i ≡ 2 }
    requires once { (i : ℕ) → times i closed.old.published ≤ 1 }
    requires alone { closed.old.alone ≡ [] }
    ensures scratch { scratch.new ≡ scratch.old }
    ensures table_key { closed.new.table_key ≡ closed.old.table_key }
    ensures done { (i : ℕ) → i < pieces_of closed.new.table_key.layout.bands
        → piece_word closed.new.words i ≡ 2 }
    ensures cells { (j : ℕ) → j < (shape_of closed.new.table_key).cells
        → cell_word (shape_of closed.new.table_key) closed.new.words j
        ≡ cell closed.new.table_key j }
    ensures once { (i : ℕ) → times i closed.new.published + times i closed.new.alone ≤ 1 }
    ensures alone { (i : ℕ) → times i closed.new.alone
        ≡ one_if (nat_lt i (pieces_of closed.old.table_key.layout.bands)
        && not (piece_word closed.old.words i == 2)) }
    ensures published_stays { closed.new.published ≡ closed.old.published }
    ensures seen_stays { closed.new.seen ≡ closed.old.seen }
    ensures looked_stays { closed.new.looked ≡ closed.old.looked }
    ensures reported_stays { closed.new.reported ≡ closed.old.reported }
    ensures left_stays { closed.new.left ≡ closed.old.left }
    ensures workspace_stays { closed.new.workspace ≡ closed.old.workspace }
{
    let _whole = closed.table_key();
    let count = pieces(closed.bands());
    for piece in 0..count {
        finish_piece(closed, page, scratch, piece);
    }
}
