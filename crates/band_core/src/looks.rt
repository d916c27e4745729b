ghost use Rattle.std.specs.Prelude.{◌≡◌, ◌<◌, length};
ghost use Rattle.band_core.specs.Places.{piece_count, cells_of};
ghost use Rattle.band_core.specs.Boards.{lacks_in, empty_in, hand_in};
ghost use Rattle.band_core.specs.Shapes.{shape_of};

use crate::layout::Layout;
use crate::needs::{need_at, need_count, pieces};
use crate::state::State;

/// Whether some need of a piece is not done.
pub(crate) fn any_lacks(layout: &Layout, states: &[State], piece: u32) -> bool
    requires piece { piece < piece_count layout.now }
    requires states { length states.now ≡ piece_count layout.now }
    ensures { result ≡ lacks_in (shape_of layout.now) states.now piece }
{
    let bands = layout.bands();
    let mut any = false;
    for k in 0..need_count(bands, piece) {
        let need = need_at(bands, piece, k);
        let waits = !states[need as usize].is_done();
        any |= waits;
    }
    any
}

/// Whether some cell of a piece is empty.
pub(crate) fn any_empty(layout: &Layout, cells: &[u64], piece: u32) -> bool
    requires piece { piece < piece_count layout.now }
    requires cells { length cells.now ≡ cells_of layout.now }
    ensures { result ≡ empty_in (shape_of layout.now) cells.now piece }
{
    let _valid = layout.bands();
    let first = layout.first_cell(piece);
    let mut any = false;
    for o in 0..layout.cell_count(piece) {
        let word = cells[(first + o) as usize];
        any = any || word == 0;
    }
    any
}

/// Whether a cell is one of a claimed piece.
pub(crate) fn any_takes(layout: &Layout, states: &[State], cell: u32) -> bool
    requires states { length states.now ≡ piece_count layout.now }
    ensures { result ≡ hand_in (shape_of layout.now) states.now cell }
{
    let bands = layout.bands();
    let mut any = false;
    for i in 0..pieces(bands) {
        let first = layout.first_cell(i);
        let count = layout.cell_count(i);
        let takes = states[i as usize].is_claimed() && (first <= cell && cell < first + count);
        any = any || takes;
    }
    any
}
