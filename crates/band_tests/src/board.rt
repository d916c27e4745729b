ghost use Rattle.std.specs.Prelude.{◌≡◌};

use band_core::Event;
use band_core::board::Board;
use band_core::layout::Layout;
use band_core::needs::pieces;
use page_model::bands::Bands;
use std::alloc::Global;
use std::test::Fail;

/// What the board answers to an event whose numbers are in range.
fn answer(layout: &Layout, board: &mut Board, event: Event) -> Option<bool>
    requires { board.old.layout ≡ layout.now }
    ensures { board.new.layout ≡ layout.now }
{
    let in_range = match event {
        Event::Claim(piece) => piece < pieces(layout.bands()),
        Event::Put(cell, _) => cell < layout.cells(),
        Event::Done(piece) => piece < pieces(layout.bands()),
    };
    if in_range {
        Some(board.step(event))
    } else {
        None
    }
}

/// Whether the board answers so to each event, from its opening on.
fn agrees(alloc: Global, layout: &Layout, events: &[(Event, bool)]) -> Result<bool, Fail> {
    let mut board = Board::new(alloc, layout.bands(), layout).or(Err("memory"))?;
    for (event, want) in events {
        if answer(layout, &mut board, *event) != Some(*want) {
            return Ok(false);
        }
    }
    Ok(true)
}

#[test]
fn a_piece_waits_for_its_needs_and_is_made_once(rt: HostRuntime) -> Result<(), Fail> {
    let bands = Bands::new(2, 1, 0);
    let layout = Layout::new(1, 1, &bands);
    let events = [
        (Event::Claim(2), false),
        (Event::Claim(0), true),
        (Event::Done(0), false),
        (Event::Put(0, 1), true),
        (Event::Put(0, 1), false),
        (Event::Done(0), true),
        (Event::Claim(0), false),
        (Event::Claim(2), false),
        (Event::Put(1, 1), false),
        (Event::Claim(1), true),
        (Event::Put(1, 1), true),
        (Event::Claim(2), false),
        (Event::Done(1), true),
        (Event::Claim(2), true),
        (Event::Done(7), false),
    ];
    assert!(rt; agrees(rt.alloc(), &layout, events.as_slice())?);
    Ok(())
}
