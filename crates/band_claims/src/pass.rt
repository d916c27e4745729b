// A seat at the table.
use crate::view::View;
use atomic_table::Seat;
use std::marker::Model;

/// A seat at the shared table that takes part in its work. It has the number of the piece that it holds, and of the
/// word that it fills next.
#[derive(Drop)]
pub struct Pass {
    pub(crate) seat: Seat<(), View>,
    pub(crate) piece: u32,
    pub(crate) next: u32,
}

impl Model for Pass {
    ghost use Rattle.std.specs.Prelude.{◌≡◌, ◌≤◌, [], length};
    ghost use Rattle.band_claims.specs.Seating.{Seating, Carries};

    ghost Value = { Seating };

    ghost view = { λ p. record { table = p.seat.table_id; view = p.seat.me.0 } };

    ghost invariant = { λ p. (p.seat.me.1 ≡ []) × Carries p.seat.me.0 p.piece p.next
        × (1 ≤ length p.seat.me.0.share) };
}

/// A seat at the shared table that only reads: it claims nothing.
#[derive(Drop)]
pub struct Reader {
    pub(crate) seat: Seat<(), View>,
}

impl Model for Reader {
    ghost use Rattle.std.specs.Prelude.{◌≡◌, []};
    ghost use Rattle.band_claims.specs.Seating.{Seating};

    ghost Value = { Seating };

    ghost view = { λ r. record { table = r.seat.table_id; view = r.seat.me.0 } };

    ghost invariant = { λ r. r.seat.me.1 ≡ [] };
}
