// The buffers that pages of one shape are trapped with.

ghost use Rattle.std.specs.Prelude.{◌≡◌, IfOk, true};
ghost use Rattle.page_model.specs.Page.{height};
ghost use Rattle.page_model.specs.Tints.{trapped_planes};
ghost use Rattle.page_tally.specs.Shapes.{shape_of};
ghost use Rattle.page_tally.specs.Standing.{HasRows};
ghost use Rattle.page_tally.specs.Uncounted.{HasTints};
ghost use Rattle.strip_engine.specs.StripBuffers.{AreBuffers};
ghost use Rattle.strip_engine.specs.Workspaces.{IsWorkspaceFor};
ghost use Rattle.strip_engine.specs.Taken.{IsTaken};

use crate::strips::{STRIP, StripBuffers, fill_buffers, new_buffers, trap_strips};
use lists::memory::vec_of;
use page_model::page::Page;
use page_model::parts::OutOfMemory;
use page_tally::Outcome;
use row_values::RowBuffers;
use std::alloc::Global;

/// The buffers that pages of one shape are trapped with: as many samples in a row, rows, plates and zones. They are
/// allocated once, and hold the result of the page that was trapped last.
#[derive(Drop)]
pub struct PageWorkspace {
    pub row_buffers: RowBuffers,
    /// The column answers of a strip.
    pub codes: Vec<u16>,
    pub buffers: StripBuffers,
    pub outcome: Outcome,
}

impl PageWorkspace {
    /// Allocates the buffers for pages of this page's shape. The planes are copied, and nothing is trapped yet.
    pub fn new(alloc: Global, page: &Page) -> Result<PageWorkspace, OutOfMemory>
        ensures workspace { IfOk result (IsWorkspaceFor (shape_of page.now)) }
        ensures rows { IfOk result (λ workspace. HasRows page.now 0 workspace.outcome) }
    {
        let doubled = 2 * page.width() as usize - 1;
        Ok(PageWorkspace {
            row_buffers: RowBuffers::new(alloc, page)?,
            codes: vec_of(alloc, 0u16, STRIP as usize * doubled)?,
            buffers: new_buffers(alloc, page)?,
            outcome: Outcome::new(alloc, page)?,
        })
    }

    /// Traps a page of this shape; its zones, marks, new tints and counts replace those of the page before. It
    /// allocates nothing.
    pub fn trap(&mut self, page: &Page)
        requires workspace { IsWorkspaceFor (shape_of page.now) self.old }
        ensures workspace { IsWorkspaceFor (shape_of page.now) self.new }
        ensures buffers { AreBuffers page.now self.new.buffers }
        ensures rows { HasRows page.now (height page.now) self.new.outcome }
        ensures planes { self.new.outcome.planes ≡ trapped_planes page.now }
    {
        self.outcome.start(page);
        self.trap_new(page);
    }

    /// Does what `trap` does for a page of which no row was added yet, as right after `new` for this page.
    pub fn trap_new(&mut self, page: &Page)
        requires workspace { IsWorkspaceFor (shape_of page.now) self.old }
        requires rows { HasRows page.now 0 self.old.outcome }
        ensures workspace { IsWorkspaceFor (shape_of page.now) self.new }
        ensures buffers { AreBuffers page.now self.new.buffers }
        ensures rows { HasRows page.now (height page.now) self.new.outcome }
        ensures planes { self.new.outcome.planes ≡ trapped_planes page.now }
    {
        self.trap_rows(page, true);
    }

    /// Traps a page of this shape, without counting; its zones, marks and new tints replace those of the page before,
    /// and the counts mean nothing. It allocates nothing.
    pub fn trap_uncounted(&mut self, page: &Page)
        requires workspace { IsWorkspaceFor (shape_of page.now) self.old }
        ensures workspace { IsWorkspaceFor (shape_of page.now) self.new }
        ensures buffers { AreBuffers page.now self.new.buffers }
        ensures tints { HasTints page.now (height page.now) self.new.outcome }
        ensures planes { self.new.outcome.planes ≡ trapped_planes page.now }
    {
        self.outcome.start_uncounted(page);
        self.trap_new_uncounted(page);
    }

    /// Does what `trap_uncounted` does for a page of which no row was added yet, as right after `new` for this page.
    pub fn trap_new_uncounted(&mut self, page: &Page)
        requires workspace { IsWorkspaceFor (shape_of page.now) self.old }
        requires tints { HasTints page.now 0 self.old.outcome }
        ensures workspace { IsWorkspaceFor (shape_of page.now) self.new }
        ensures buffers { AreBuffers page.now self.new.buffers }
        ensures tints { HasTints page.now (height page.now) self.new.outcome }
        ensures planes { self.new.outcome.planes ≡ trapped_planes page.now }
    {
        self.trap_rows(page, false);
    }

    // Traps all rows, and counts them if `counted`.
    fn trap_rows(&mut self, page: &Page, counted: bool)
        requires workspace { IsWorkspaceFor (shape_of page.now) self.old }
        requires outcome { IsTaken page.now 0 counted self.old.outcome }
        ensures workspace { IsWorkspaceFor (shape_of page.now) self.new }
        ensures buffers { AreBuffers page.now self.new.buffers }
        ensures outcome { IsTaken page.now (height page.now) counted self.new.outcome }
        ensures planes { self.new.outcome.planes ≡ trapped_planes page.now }
    {
        let _valid = page.plates();
        fill_buffers(page, &mut self.buffers, &mut self.row_buffers);
        trap_strips(
            page,
            &mut self.codes,
            &mut self.buffers,
            &mut self.row_buffers,
            counted,
            &mut self.outcome,
        );
    }
}
