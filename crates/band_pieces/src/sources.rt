// Tables whose cells can be read.
ghost use Rattle.std.specs.Prelude.{◌≡◌, ℕ};
ghost use Rattle.band_core.specs.TableShapes.{Has};
ghost use Rattle.band_claims.specs.declared.table_key.TableKey.{TableKey};
ghost use Rattle.band_claims.specs.Seating.{Seats};
ghost use Rattle.band_claims.specs.TableKeys.{cell, shape_of};
ghost use Rattle.band_claims.specs.Views.{Knows};
ghost use Rattle.band_pieces.specs.Fills.{HasCells};

use band_claims::{Closed, Pass, Reader, Shared};

/// A table whose cells can be read, by a seat at it.
pub trait CellSource<S> {
    /// The table's page and layout.
    ghost table_key: { Self → S → TableKey };

    /// Whether the cells of a piece have their defined values, as far as the seat knows.
    ghost knows: { Self → S → ℕ → Type 0 };

    /// The word of a cell of a piece that is known.
    fn word(&self, seat: &mut S, number: u32) -> u64
        requires known { (piece : ℕ) × Has (shape_of (table_key self.now seat.old)) piece number
            × knows self.now seat.old piece }
        ensures seat { seat.new ≡ seat.old }
        ensures word { result ≡ cell (table_key self.now seat.old) number };
}

impl CellSource<Pass> for Shared {
    ghost table_key = { λ shared pass. shared.table_key };

    ghost knows = { λ shared pass piece. Seats shared pass × Knows pass.view piece };

    fn word(&self, seat: &mut Pass, number: u32) -> u64 {
        self.read_cell(seat, number)
    }
}

impl CellSource<Reader> for Shared {
    ghost table_key = { λ shared reader. shared.table_key };

    ghost knows = { λ shared reader piece. Seats shared reader × Knows reader.view piece };

    fn word(&self, seat: &mut Reader, number: u32) -> u64 {
        self.read_alone(seat, number)
    }
}

/// A closed table can be read by whoever has it.
impl CellSource<()> for Closed {
    ghost table_key = { λ closed seat. closed.table_key };

    ghost knows = { λ closed seat piece. HasCells closed piece };

    fn word(&self, _seat: &mut (), number: u32) -> u64 {
        let _fits = self.layout();
        self.cell(number)
    }
}
