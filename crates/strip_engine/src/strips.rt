// The page strip by strip: the column answers of some rows, and then the traps of each row.

ghost use Rattle.std.specs.Prelude.{◌≡◌, ◌<◌, ◌≤◌, ◌+◌, ◌*◌, ◌-◌, IfOk, MatchOption, length};
ghost use Rattle.row_values.specs.Arms.{AreAnswers};
ghost use Rattle.row_values.specs.Workspace.{Serves};
ghost use Rattle.row_values.specs.Rows.{HoldsAnswers, doubled};
ghost use Rattle.page_model.specs.Page.{height};
ghost use Rattle.page_model.specs.Reach.{page_reach};
ghost use Rattle.page_tally.specs.Shapes.{shape_of};
ghost use Rattle.strip_engine.specs.StripBuffers.{HasPlaces, AreBuffers};
ghost use Rattle.page_model.specs.Zones.{AreZones};
ghost use Rattle.strip_engine.specs.Taken.{IsTaken};
ghost use Rattle.page_tally.specs.Standing.{AreMarks, IsNewRow, KeepsRow};

use crate::grid::samples_of;
use crate::marks::{fill_marks, marks_between, marks_of_row, zones_of_row};
use crate::zones::fill_zones;
use lists::memory::vec_of;
use page_model::page::Page;
use page_model::parts::OutOfMemory;
use page_tally::Outcome;
use row_values::{RowBuffers, Rows, is_quiet, make_answers, make_row, row_of};
use std::alloc::Global;

/// The greatest number of rows of a strip.
pub const STRIP: u32 = 64;

/// What the strips of a page are trapped with: the zones and marks of all samples, row by row, and a buffer for the new
/// tints of a row.
#[derive(Drop)]
pub struct StripBuffers {
    pub zones: Vec<u8>,
    pub marks: Vec<u8>,
    pub row: Vec<u16>,
}

/// Allocates buffers for pages of this page's shape.
pub fn new_buffers(alloc: Global, page: &Page) -> Result<StripBuffers, OutOfMemory>
    ensures { IfOk result (HasPlaces (shape_of page.now)) }
{
    let samples = samples_of(page);
    Ok(StripBuffers {
        zones: vec_of(alloc, 0u8, samples)?,
        marks: vec_of(alloc, 0u8, samples)?,
        row: vec_of(alloc, 0u16, page.plates() as usize * page.width() as usize)?,
    })
}

/// Writes the zones and marks of the page's samples to buffers for pages of its shape.
pub fn fill_buffers(page: &Page, buffers: &mut StripBuffers, workspace: &mut RowBuffers)
    requires buffers { HasPlaces (shape_of page.now) buffers.old }
    requires workspace { Serves workspace.old page.now }
    ensures buffers { AreBuffers page.now buffers.new }
    ensures workspace { workspace.new ≡ workspace.old }
{
    fill_zones(page, &mut buffers.zones, workspace);
    fill_marks(page, &buffers.zones, &mut buffers.marks);
}

/// Adds row y to the result: its new tints and, where rows are counted, its zones and marks.
fn take_row(
    page: &Page,
    y: u32,
    zones: &[u8],
    marks: &[u8],
    tints: Option<&[u16]>,
    counted: bool,
    outcome: &mut Outcome,
)
    requires line { y < height page.now }
    requires zones { AreZones page.now y zones.now }
    requires marks { AreMarks page.now y marks.now }
    requires tints { MatchOption tints (KeepsRow page.now y) (λ row. IsNewRow page.now y row.now) }
    requires outcome { IsTaken page.now y counted outcome.old }
    ensures { IsTaken page.now (y + 1) counted outcome.new }
{
    if counted {
        outcome.take_in(page, y, zones, marks, tints);
    } else {
        outcome.take_uncounted(page, y, tints);
    }
}

/// Traps row y, by its column answers. A row without an edge in reach is neither made nor compared.
fn trap_row(
    page: &Page,
    y: u32,
    codes: &[u16],
    buffers: &mut StripBuffers,
    workspace: &mut RowBuffers,
    counted: bool,
    outcome: &mut Outcome,
)
    requires line { y < height page.now }
    requires codes { AreAnswers page.now (page_reach page.now) y (doubled page.now) codes.now }
    requires buffers { AreBuffers page.now buffers.old }
    requires workspace { Serves workspace.old page.now }
    requires outcome { IsTaken page.now y counted outcome.old }
    ensures buffers { AreBuffers page.now buffers.new }
    ensures workspace { workspace.new ≡ workspace.old }
    ensures outcome { IsTaken page.now (y + 1) counted outcome.new }
{
    let zones = zones_of_row(page, &buffers.zones, y);
    let marks = marks_of_row(page, &buffers.marks, y);
    if is_quiet(page, y, codes) {
        take_row(page, y, zones, marks, None, counted, outcome);
        return;
    }
    make_row(page, y, zones, codes, &mut buffers.row, workspace);
    let tints = Some(buffers.row.as_slice());
    take_row(page, y, zones, marks, tints, counted, outcome);
}

/// Traps these rows, by their column answers.
fn trap_rows(
    page: &Page,
    rows: Rows,
    codes: &[u16],
    buffers: &mut StripBuffers,
    workspace: &mut RowBuffers,
    counted: bool,
    outcome: &mut Outcome,
)
    requires inside { rows.first + rows.count ≤ height page.now }
    requires codes { HoldsAnswers page.now rows codes.now }
    requires buffers { AreBuffers page.now buffers.old }
    requires workspace { Serves workspace.old page.now }
    requires outcome { IsTaken page.now rows.first counted outcome.old }
    ensures buffers { AreBuffers page.now buffers.new }
    ensures workspace { workspace.new ≡ workspace.old }
    ensures outcome { IsTaken page.now (rows.first + rows.count) counted outcome.new }
{
    let wide = 2 * page.width() as usize - 1;
    for k in 0..rows.count {
        let answers = row_of(codes, wide, k as usize);
        trap_row(
            page,
            rows.first + k,
            answers,
            buffers,
            workspace,
            counted,
            outcome,
        );
    }
}

/// Traps these rows. `codes` is a buffer for the column answers of each of them.
fn trap_strip(
    page: &Page,
    rows: Rows,
    codes: &mut [u16],
    buffers: &mut StripBuffers,
    workspace: &mut RowBuffers,
    counted: bool,
    outcome: &mut Outcome,
)
    requires some { 1 ≤ rows.count }
    requires inside { rows.first + rows.count ≤ height page.now }
    requires codes { length codes.old ≡ rows.count * doubled page.now }
    requires buffers { AreBuffers page.now buffers.old }
    requires workspace { Serves workspace.old page.now }
    requires outcome { IsTaken page.now rows.first counted outcome.old }
    ensures codes { length codes.new ≡ length codes.old }
    ensures buffers { AreBuffers page.now buffers.new }
    ensures workspace { workspace.new ≡ workspace.old }
    ensures outcome { IsTaken page.now (rows.first + rows.count) counted outcome.new }
{
    let halo = page.reach2().div_ceil(2);
    let first = rows.first.saturating_sub(halo);
    let to = (rows.first + rows.count + halo).min(page.height());
    let stored = Rows {
        first,
        count: to - first,
    };
    let near = marks_between(page, &buffers.marks, stored);
    make_answers(page, rows, stored, near, codes);
    trap_rows(page, rows, codes, buffers, workspace, counted, outcome);
}

/// Traps the page, strip by strip, and counts its rows if that is asked. `codes` is a buffer for the column answers of
/// each row of a strip.
pub fn trap_strips(
    page: &Page,
    codes: &mut [u16],
    buffers: &mut StripBuffers,
    workspace: &mut RowBuffers,
    counted: bool,
    outcome: &mut Outcome,
)
    requires codes { length codes.old ≡ 64 * doubled page.now }
    requires buffers { AreBuffers page.now buffers.old }
    requires workspace { Serves workspace.old page.now }
    requires outcome { IsTaken page.now 0 counted outcome.old }
    ensures codes { length codes.new ≡ length codes.old }
    ensures buffers { AreBuffers page.now buffers.new }
    ensures workspace { workspace.new ≡ workspace.old }
    ensures outcome { IsTaken page.now (height page.now) counted outcome.new }
{
    let height = page.height();
    let wide = 2 * page.width() as usize - 1;
    let mut first = 0;
    while first < height {
        let count = (height - first).min(STRIP);
        let codes = &mut codes[..count as usize * wide];
        trap_strip(
            page,
            Rows { first, count },
            codes,
            buffers,
            workspace,
            counted,
            outcome,
        );
        first += count;
    }
}
