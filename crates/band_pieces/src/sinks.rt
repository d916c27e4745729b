// Tables whose cells can be filled.
ghost use Rattle.std.specs.Prelude.{◌≡◌, ℕ, ◌<◌, Some};
ghost use Rattle.band_claims.specs.Seating.{Seats};
ghost use Rattle.band_claims.specs.TableKeys.{shape_of, IsFit};
ghost use Rattle.band_claims.specs.Filled.{AreValues, filled_to};
ghost use Rattle.page_model.specs.Bands.{pieces_of};
ghost use Rattle.band_pieces.specs.Fills.{FillsPiece, HasCells};

use crate::alone_puts::put_values_alone;
use crate::sources::CellSource;
use band_claims::{Closed, Pass, Shared, put_values};
use band_core::values::CellValue;

/// A table whose pieces can be filled, by a seat at it.
pub(crate) trait CellSink<S>: CellSource<S> {
    /// Whether the seat may fill the piece.
    ghost may_fill: { Self → S → ℕ → Type 0 };

    /// How the seat changes when it has filled the piece.
    ghost filled: { Self → S → S → ℕ → Type 0 };

    /// Packs the values of a piece into its cells.
    fn put_values<V: CellValue>(&self, seat: &mut S, piece: u32, values: &[V])
        requires fit { IsFit (Self.table_key self.now seat.old) }
        requires piece { piece < pieces_of (Self.table_key self.now seat.old).layout.bands }
        requires may { may_fill self.now seat.old piece }
        requires values { AreValues (Self.table_key self.now seat.old) piece
            (V.numbers values.now) }
        ensures { filled self.now seat.old seat.new piece };
}

impl CellSink<Pass> for Shared {
    ghost may_fill = { λ shared pass piece. Seats shared pass
        × (pass.view.stored ≡ Some piece) × (pass.view.filled ≡ 0) };

    ghost filled = { λ shared before after piece. Seats shared after
        × (after.view ≡ filled_to ((shape_of shared.table_key).size piece) before.view) };

    fn put_values<V: CellValue>(&self, seat: &mut Pass, piece: u32, values: &[V]) {
        put_values(self, seat, piece, values);
    }
}

/// The seat at a closed table, for filling the pieces that were left undone: there is no other.
pub(crate) struct Alone;

impl CellSource<Closed> for Alone {
    ghost table_key = { λ alone closed. closed.table_key };

    ghost knows = { λ alone closed piece. HasCells closed piece };

    fn word(&self, seat: &mut Closed, number: u32) -> u64 {
        let _fits = seat.layout();
        seat.cell(number)
    }
}

impl CellSink<Closed> for Alone {
    ghost may_fill = { λ alone closed piece. Unit {0} };

    ghost filled = { λ alone before after piece. FillsPiece before after piece };

    fn put_values<V: CellValue>(&self, seat: &mut Closed, piece: u32, values: &[V]) {
        put_values_alone(seat, piece, values);
    }
}
