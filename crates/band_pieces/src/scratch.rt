ghost use Rattle.std.specs.Prelude.{◌≡◌, ℕ, ◌<◌, true, IfOk, Some, vec_len};
ghost use Rattle.band_claims.specs.Seating.{Seats};
ghost use Rattle.band_claims.specs.TableKeys.{shape_of, IsFit};
ghost use Rattle.band_claims.specs.Views.{Knows};
ghost use Rattle.band_core.specs.Needs.{is_need};
ghost use Rattle.band_claims.specs.Filled.{filled_to};
ghost use Rattle.page_model.specs.Bands.{AreBands, pieces_of};
ghost use Rattle.page_model.specs.Page.{height, plates, width};
ghost use Rattle.page_model.specs.Reach.{page_reach};
ghost use Rattle.band_pieces.specs.Workspace.{Memory};

use crate::fills::{PieceTask, fill};
use crate::sinks::CellSink;
use band_claims::{Maker, Pass, Shared};
use band_core::layout::Layout;
use lists::memory::vec_of;
use page_model::bands::Bands;
use page_model::page::Page;
use page_model::parts::OutOfMemory;
use row_values::RowBuffers;
use std::alloc::Global;
use std::marker::Model;

/// All the memory of one worker: the values of a piece of each phase that it reads and makes, and the buffers of
/// `row_values`. It is allocated once, and a piece allocates nothing: contracts see the capacity of each list, and that
/// it stays.
#[derive(Drop)]
pub struct Scratch {
    layout: Layout,
    zones: Vec<u8>,
    marks: Vec<u8>,
    answers: Vec<u16>,
    tints: Vec<u16>,
    workspace: RowBuffers,
}

impl Model for Scratch {
    ghost use Rattle.std.specs.Prelude.{vec_capacity, vec_len};
    ghost use Rattle.band_pieces.specs.Workspace.{IsWorkspace, Memory};

    ghost Value = { Memory };

    ghost view = { λ s. record {
      layout = s.layout;
      zones = vec_capacity s.zones;
      marks = vec_capacity s.marks;
      answers = vec_capacity s.answers;
      tints = vec_capacity s.tints;
      workspace = s.workspace;
    } };

    ghost invariant = { λ s. IsWorkspace s.layout s.workspace (vec_len s.zones) (vec_len s.marks)
        (vec_len s.answers) (vec_len s.tints) };
}

impl Scratch {
    /// Allocates the memory for pieces of pages like this one, in these bands.
    pub fn new(alloc: Global, page: &Page, bands: &Bands) -> Result<Scratch, OutOfMemory>
        requires bands { AreBands bands.now }
        requires rows { bands.now.rows ≡ height page.now }
        requires reach { bands.now.reach2 ≡ page_reach page.now }
        ensures { IfOk result (λ scratch. scratch.layout
            ≡ record { bands = bands.now; width = width page.now; plates = plates page.now }) }
    {
        let layout = Layout::new(page.width(), page.plates(), bands);
        let band = bands.height.min(bands.rows);
        let below = (bands.height + 1).min(bands.rows);
        let near = (bands.height + bands.reach2 + 1).min(bands.rows);
        Ok(Scratch {
            layout,
            zones: vec_of(alloc, 0u8, (below * layout.row_values(0)) as usize)?,
            marks: vec_of(alloc, 0u8, (near * layout.row_values(1)) as usize)?,
            answers: vec_of(alloc, 0u16, (band * layout.row_values(2)) as usize)?,
            tints: vec_of(alloc, 0u16, (band * layout.row_values(3)) as usize)?,
            workspace: RowBuffers::new(alloc, page)?,
        })
    }

    /// Makes a piece and fills its cells.
    pub(crate) fn fill_piece<S, C: CellSink<S>>(
        &mut self,
        table: &C,
        seat: &mut S,
        page: &Page,
        piece: u32,
    )
        requires layout { self.old.layout ≡ (C.table_key table.now seat.old).layout }
        requires page { page.now ≡ (C.table_key table.now seat.old).page.value }
        requires fit { IsFit (C.table_key table.now seat.old) }
        requires piece { piece < pieces_of self.old.layout.bands }
        requires may { C.may_fill table.now seat.old piece }
        requires known { (n : ℕ) → is_need self.old.layout.bands piece n ≡ true
            → C.knows table.now seat.old n }
        ensures scratch { self.new ≡ self.old }
        ensures filled { C.filled table.now seat.old seat.new piece }
    {
        let task = PieceTask {
            page,
            layout: &self.layout,
            piece,
        };
        fill(
            table,
            seat,
            &task,
            self.zones.as_mut_slice(),
            self.marks.as_mut_slice(),
            self.answers.as_mut_slice(),
            self.tints.as_mut_slice(),
            &mut self.workspace,
        );
    }
}

impl Maker for Scratch {
    ghost serves = { λ scratch table_key. scratch.layout ≡ table_key.layout };

    ghost Workspace = { Memory };

    ghost workspace = { λ scratch. scratch };

    fn fill(&mut self, page: &Page, shared: &Shared, pass: &mut Pass, piece: u32)
        requires page { page.now ≡ shared.now.table_key.page.value }
        requires serves { self.old.layout ≡ shared.now.table_key.layout }
        requires pass { Seats shared.now pass.old }
        requires piece { piece < pieces_of shared.now.table_key.layout.bands }
        requires stored { pass.old.view.stored ≡ Some piece }
        requires none_filled { pass.old.view.filled ≡ 0 }
        requires known { (n : ℕ) → is_need shared.now.table_key.layout.bands piece n ≡ true
            → Knows pass.old.view n }
        ensures serves { self.new.layout ≡ shared.now.table_key.layout }
        ensures pass { Seats shared.now pass.new }
        ensures filled { pass.new.view
            ≡ filled_to ((shape_of shared.now.table_key).size piece) pass.old.view }
        ensures workspace { self.new ≡ self.old }
    {
        let _fits = shared.bands();
        self.fill_piece(shared, pass, page, piece);
    }
}
