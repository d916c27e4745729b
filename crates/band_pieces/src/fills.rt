// The pieces of each phase, made from the cells of their needs and packed into their own cells. The buffers are large
// enough for the rows that are read and made.
ghost use Rattle.std.specs.Prelude.{◌≡◌, ℕ, ◌*◌, ◌<◌, ◌≤◌, true, length};
ghost use Rattle.band_claims.specs.TableKeys.{IsFit};
ghost use Rattle.band_core.specs.Values.{IsFor};
ghost use Rattle.band_core.specs.Needs.{is_need};
ghost use Rattle.band_pieces.specs.Workspace.{IsWorkspace, most_rows};
ghost use Rattle.row_values.specs.Workspace.{Serves};
ghost use Rattle.page_model.specs.Bands.{phase_of, pieces_of};
ghost use Rattle.page_model.specs.Columns.{halo};
ghost use Rattle.band_core.specs.Places.{per_row};

use crate::rows::read_rows;
use crate::sinks::CellSink;
use crate::spans::{rows_below, rows_near, rows_of};
use band_core::layout::Layout;
use page_model::page::Page;
use row_values::{RowBuffers, make_answers, make_marks, make_tints, make_zones};

/// A piece that is to be made: its page, how the page's pieces lie, and its number.
#[derive(Clone, Copy, Drop)]
pub(crate) struct PieceTask<'a> {
    pub(crate) page: &'a Page,
    pub(crate) layout: &'a Layout,
    pub(crate) piece: u32,
}

/// The zones of a band, from the page alone.
pub(crate) fn fill_zones<S, C: CellSink<S>>(
    table: &C,
    seat: &mut S,
    task: &PieceTask<'_>,
    zones: &mut [u8],
    workspace: &mut RowBuffers,
)
    requires page { task.now.page.now ≡ (C.table_key table.now seat.old).page.value }
    requires layout { task.now.layout.now ≡ (C.table_key table.now seat.old).layout }
    requires fit { IsFit (C.table_key table.now seat.old) }
    requires lies { IsFor task.now.page.now task.now.layout.now }
    requires piece { task.now.piece < pieces_of task.now.layout.now.bands }
    requires phase { phase_of task.now.layout.now.bands task.now.piece ≡ 0 }
    requires may { C.may_fill table.now seat.old task.now.piece }
    requires zones { most_rows task.now.layout.now 0 * per_row task.now.layout.now 0 ≤ length
        zones.old }
    requires workspace { Serves workspace.old task.now.page.now }
    ensures filled { C.filled table.now seat.old seat.new task.now.piece }
    ensures zones { length zones.new ≡ length zones.old }
    ensures workspace { workspace.new ≡ workspace.old }
{
    let layout = task.layout;
    let rows = rows_of(layout.bands(), task.piece);
    let count = rows.count as usize * layout.row_values(0) as usize;
    let zones = &mut zones[..count];
    make_zones(task.page, rows, zones, workspace);
    table.put_values(seat, task.piece, zones);
}

/// The marks of a band, from the zones of its rows and of the row below it.
pub(crate) fn fill_marks<S, C: CellSink<S>>(
    table: &C,
    seat: &mut S,
    task: &PieceTask<'_>,
    zones: &mut [u8],
    marks: &mut [u8],
)
    requires page { task.now.page.now ≡ (C.table_key table.now seat.old).page.value }
    requires layout { task.now.layout.now ≡ (C.table_key table.now seat.old).layout }
    requires fit { IsFit (C.table_key table.now seat.old) }
    requires lies { IsFor task.now.page.now task.now.layout.now }
    requires piece { task.now.piece < pieces_of task.now.layout.now.bands }
    requires phase { phase_of task.now.layout.now.bands task.now.piece ≡ 1 }
    requires may { C.may_fill table.now seat.old task.now.piece }
    requires known { (n : ℕ) → is_need task.now.layout.now.bands task.now.piece n ≡ true → C.knows
        table.now seat.old n }
    requires zones { most_rows task.now.layout.now 1 * per_row task.now.layout.now 0 ≤ length
        zones.old }
    requires marks { most_rows task.now.layout.now 0 * per_row task.now.layout.now 1 ≤ length
        marks.old }
    ensures filled { C.filled table.now seat.old seat.new task.now.piece }
    ensures zones { length zones.new ≡ length zones.old }
    ensures marks { length marks.new ≡ length marks.old }
{
    let layout = task.layout;
    let rows = rows_of(layout.bands(), task.piece);
    let stored = rows_below(layout.bands(), rows);
    let wide = layout.row_values(0) as usize;
    let zones = &mut zones[..stored.count as usize * wide];
    read_rows(table, seat, layout, 0, stored, zones);
    let marks = &mut marks[..rows.count as usize * wide];
    make_marks(task.page, rows, stored, zones, marks);
    table.put_values(seat, task.piece, marks);
}

/// The column answers of a band, from the marks of its rows and of the rows within reach.
pub(crate) fn fill_answers<S, C: CellSink<S>>(
    table: &C,
    seat: &mut S,
    task: &PieceTask<'_>,
    marks: &mut [u8],
    answers: &mut [u16],
)
    requires page { task.now.page.now ≡ (C.table_key table.now seat.old).page.value }
    requires layout { task.now.layout.now ≡ (C.table_key table.now seat.old).layout }
    requires fit { IsFit (C.table_key table.now seat.old) }
    requires lies { IsFor task.now.page.now task.now.layout.now }
    requires piece { task.now.piece < pieces_of task.now.layout.now.bands }
    requires phase { phase_of task.now.layout.now.bands task.now.piece ≡ 2 }
    requires may { C.may_fill table.now seat.old task.now.piece }
    requires known { (n : ℕ) → is_need task.now.layout.now.bands task.now.piece n ≡ true → C.knows
        table.now seat.old n }
    requires marks { most_rows task.now.layout.now (2 * halo task.now.layout.now.bands.reach2) *
        per_row task.now.layout.now 1 ≤ length marks.old }
    requires answers { most_rows task.now.layout.now 0 * per_row task.now.layout.now 2 ≤ length
        answers.old }
    ensures filled { C.filled table.now seat.old seat.new task.now.piece }
    ensures marks { length marks.new ≡ length marks.old }
    ensures answers { length answers.new ≡ length answers.old }
{
    let layout = task.layout;
    let rows = rows_of(layout.bands(), task.piece);
    let stored = rows_near(layout.bands(), rows);
    let marks = &mut marks[..stored.count as usize * layout.row_values(1) as usize];
    read_rows(table, seat, layout, 1, stored, marks);
    let answers = &mut answers[..rows.count as usize * layout.row_values(2) as usize];
    make_answers(task.page, rows, stored, marks, answers);
    table.put_values(seat, task.piece, answers);
}

/// The new tints of a band, from its zones and its column answers.
pub(crate) fn fill_tints<S, C: CellSink<S>>(
    table: &C,
    seat: &mut S,
    task: &PieceTask<'_>,
    zones: &mut [u8],
    answers: &mut [u16],
    tints: &mut [u16],
    workspace: &mut RowBuffers,
)
    requires page { task.now.page.now ≡ (C.table_key table.now seat.old).page.value }
    requires layout { task.now.layout.now ≡ (C.table_key table.now seat.old).layout }
    requires fit { IsFit (C.table_key table.now seat.old) }
    requires lies { IsFor task.now.page.now task.now.layout.now }
    requires piece { task.now.piece < pieces_of task.now.layout.now.bands }
    requires phase { phase_of task.now.layout.now.bands task.now.piece ≡ 3 }
    requires may { C.may_fill table.now seat.old task.now.piece }
    requires known { (n : ℕ) → is_need task.now.layout.now.bands task.now.piece n ≡ true → C.knows
        table.now seat.old n }
    requires zones { most_rows task.now.layout.now 0 * per_row task.now.layout.now 0 ≤ length
        zones.old }
    requires answers { most_rows task.now.layout.now 0 * per_row task.now.layout.now 2 ≤ length
        answers.old }
    requires tints { most_rows task.now.layout.now 0 * per_row task.now.layout.now 3 ≤ length
        tints.old }
    requires workspace { Serves workspace.old task.now.page.now }
    ensures filled { C.filled table.now seat.old seat.new task.now.piece }
    ensures zones { length zones.new ≡ length zones.old }
    ensures answers { length answers.new ≡ length answers.old }
    ensures tints { length tints.new ≡ length tints.old }
    ensures workspace { workspace.new ≡ workspace.old }
{
    let layout = task.layout;
    let rows = rows_of(layout.bands(), task.piece);
    let count = rows.count as usize;
    let zones = &mut zones[..count * layout.row_values(0) as usize];
    read_rows(table, seat, layout, 0, rows, zones);
    let answers = &mut answers[..count * layout.row_values(2) as usize];
    read_rows(table, seat, layout, 2, rows, answers);
    let tints = &mut tints[..count * layout.row_values(3) as usize];
    make_tints(task.page, rows, zones, answers, tints, workspace);
    table.put_values(seat, task.piece, tints);
}

/// A piece of any phase. The buffers are large enough for any piece of the layout.
pub(crate) fn fill<S, C: CellSink<S>>(
    table: &C,
    seat: &mut S,
    task: &PieceTask<'_>,
    zones: &mut [u8],
    marks: &mut [u8],
    answers: &mut [u16],
    tints: &mut [u16],
    workspace: &mut RowBuffers,
)
    requires page { task.now.page.now ≡ (C.table_key table.now seat.old).page.value }
    requires layout { task.now.layout.now ≡ (C.table_key table.now seat.old).layout }
    requires fit { IsFit (C.table_key table.now seat.old) }
    requires piece { task.now.piece < pieces_of task.now.layout.now.bands }
    requires may { C.may_fill table.now seat.old task.now.piece }
    requires known { (n : ℕ) → is_need task.now.layout.now.bands task.now.piece n ≡ true → C.knows
        table.now seat.old n }
    requires workspace { IsWorkspace task.now.layout.now workspace.old (length zones.old)
        (length marks.old) (length answers.old) (length tints.old) }
    ensures filled { C.filled table.now seat.old seat.new task.now.piece }
    ensures zones { length zones.new ≡ length zones.old }
    ensures marks { length marks.new ≡ length marks.old }
    ensures answers { length answers.new ≡ length answers.old }
    ensures tints { length tints.new ≡ length tints.old }
    ensures workspace { workspace.new ≡ workspace.old }
{
    match task.piece / task.layout.bands().count {
        0 => fill_zones(table, seat, task, zones, workspace),
        1 => fill_marks(table, seat, task, zones, marks),
        2 => fill_answers(table, seat, task, marks, answers),
        _ => fill_tints(table, seat, task, zones, answers, tints, workspace),
    }
}
