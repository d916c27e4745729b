// The cells of a closed table, filled by one thread.
ghost use Rattle.std.specs.Prelude.{◌≡◌, ℕ, ◌+◌, ◌<◌};
ghost use Rattle.band_claims.specs.TableKeys.{cell, shape_of};
ghost use Rattle.band_pieces.specs.Fills.{FillsPiece, FillsTo};
ghost use Rattle.band_claims.specs.Filled.{AreValues};
ghost use Rattle.page_model.specs.Bands.{pieces_of};
ghost use Rattle.band_core.specs.Places.{cell_total, first_cell_of};

use band_claims::{Closed, word_of_values};
use band_core::values::CellValue;

/// Writes the defined word of cell number `o` of a piece, whose first `o` cells are filled.
fn put_word(closed: &mut Closed, piece: u32, o: u32, word: u64)
    requires piece { piece < pieces_of closed.old.table_key.layout.bands }
    requires cell { o < cell_total closed.old.table_key.layout piece }
    requires word { word
        ≡ cell closed.old.table_key (first_cell_of closed.old.table_key.layout piece + o) }
    ensures { FillsTo closed.old closed.new piece o }
{
    let first = closed.layout().first_cell(piece);
    closed.set_cell(first + o, word);
}

/// Packs the values of a piece into its cells.
pub(crate) fn put_values_alone<V: CellValue>(closed: &mut Closed, piece: u32, values: &[V])
    requires piece { piece < pieces_of closed.old.table_key.layout.bands }
    requires values { AreValues closed.old.table_key piece (V.numbers values.now) }
    ensures { FillsPiece closed.old closed.new piece }
{
    let _whole = closed.table_key();
    for o in 0..closed.layout().cell_count(piece) {
        let word = word_of_values(closed.table_key(), piece, o, values);
        put_word(closed, piece, o, word);
    }
}
