ghost use Rattle.std.specs.Prelude.{◌≡◌, false, Some, None, IfOk, if◌then◌else◌};
ghost use Rattle.page_model.specs.declared.parts.PageParts.{PageParts};
ghost use Rattle.band_core.specs.Boards.{opening, after, InRange};
ghost use Rattle.band_core.specs.Runs.{Sound, ByRecipe};
ghost use Rattle.band_core.specs.Recipe.{recipe};
ghost use Rattle.band_core.specs.Shapes.{shape_of};
ghost use Rattle.band_core.specs.Values.{IsFor, cell};

use crate::event::Event;
use crate::layout::Layout;
use crate::looks::{any_empty, any_lacks, any_takes};
use crate::needs::pieces;
use crate::state::State;
use lists::names::OutOfMemory;
use page_model::bands::Bands;
use std::alloc::Global;
use std::marker::Model;

/// The states of a page's pieces, and the words of all cells. Contracts see the layout beside them.
#[derive(Drop)]
pub struct Board {
    layout: Layout,
    states: Vec<State>,
    cells: Vec<u64>,
}

impl Model for Board {
    ghost use Rattle.band_core.specs.LaidBoards.{LaidBoard, IsLaid};

    ghost Value = { LaidBoard };

    ghost view = { λ b. record {
      layout = b.layout;
      board = record { states = b.states.items; cells = b.cells.items };
    } };

    ghost invariant = { λ b. IsLaid b.layout b.states.items b.cells.items };
}

impl Board {
    /// The opening board: each piece is free and each cell empty.
    pub fn new(alloc: Global, bands: &Bands, layout: &Layout) -> Result<Board, OutOfMemory>
        requires bands { layout.now.bands ≡ bands.now }
        ensures opening { IfOk result (λ b. b ≡ record {
          layout = layout.now;
          board = opening (shape_of layout.now);
        }) }
    {
        let count = layout.cells();
        let pieces = pieces(layout.bands());
        let Ok(states) = vec![in alloc; State::Free; pieces as usize] else {
            return Err(OutOfMemory);
        };
        let Ok(cells) = vec![in alloc; 0u64; count as usize] else {
            return Err(OutOfMemory);
        };
        Ok(Board {
            layout: *layout,
            states,
            cells,
        })
    }

    /// Makes an event happen. Returns false, and changes nothing, exactly where it may not happen.
    ///
    /// A piece may be claimed if it is free and each of its needs is done, a cell may be filled if it is empty and its
    /// piece is claimed, and a piece may be done if it is claimed and none of its cells is empty. If each cell is
    /// filled with what the recipe gives over the board, a board that is sound for a page stays so.
    pub fn step(&mut self, event: Event) -> bool
        requires range { InRange (shape_of self.old.layout) event }
        ensures layout { self.new.layout ≡ self.old.layout }
        ensures after { after (shape_of self.old.layout) self.old.board event
            ≡ (if result then Some self.new.board else None) }
        ensures refused { result ≡ false → self.new ≡ self.old }
        ensures sound { (page : PageParts) → IsFor page self.old.layout
            → ByRecipe (recipe page self.old.layout) self.old.board event
            → Sound (shape_of self.old.layout) (cell page self.old.layout) self.old.board
            → Sound (shape_of self.old.layout) (cell page self.old.layout) self.new.board }
    {
        self.change(event)
    }

    fn change(&mut self, event: Event) -> bool
        requires range { InRange (shape_of self.old.layout) event }
        ensures layout { self.new.layout ≡ self.old.layout }
        ensures after { after (shape_of self.old.layout) self.old.board event
            ≡ (if result then Some self.new.board else None) }
        ensures refused { result ≡ false → self.new ≡ self.old }
    {
        match event {
            Event::Claim(piece) => {
                if self.states[piece as usize].is_free()
                    && !any_lacks(&self.layout, self.states.as_slice(), piece)
                {
                    self.states[piece as usize] = State::Claimed;
                    true
                } else {
                    false
                }
            }
            Event::Put(cell, word) => {
                if self.cells[cell as usize] == 0
                    && any_takes(&self.layout, self.states.as_slice(), cell)
                {
                    self.cells[cell as usize] = word;
                    true
                } else {
                    false
                }
            }
            Event::Done(piece) => {
                if self.states[piece as usize].is_claimed()
                    && !any_empty(&self.layout, self.cells.as_slice(), piece)
                {
                    self.states[piece as usize] = State::Done;
                    true
                } else {
                    false
                }
            }
        }
    }
}
