// A whole sheet, strip by strip.

ghost use Rattle.std.specs.Prelude.{◌≡◌, ◌<◌, ◌≤◌, ◌+◌, ◌*◌, ◌++◌, [], ℕ, All, IfOk, IfSome, OnOk, map, length, slice_index_or, slice_set};
ghost use Rattle.page_model.specs.Page.{height, plates, width};
ghost use Rattle.page_model.specs.Tints.{new_tints};
ghost use Rattle.sheet_geometry.specs.Areas.{traps};
ghost use Rattle.sheet_geometry.specs.Plans.{AreRulersFor, AreSmall};
ghost use Rattle.sheet_geometry.specs.Spans.{AreSpans, IsRuler, IsSpan};
ghost use Rattle.sheet_engine.specs.Strips.{IsSomeSpan, planes_of};
ghost use Rattle.sheet_engine.specs.Workspaces.{IsStripWorkspace, columns_in, tiles_in};
ghost use Rattle.sheet_engine.specs.Whole.{AreTintsTo, HasStrip, IsCounted};
ghost use Rattle.sheet_files.specs.Kept.{IsKept};
ghost use Rattle.sheet_engine.specs.Works.{AreNone, HasArea};
ghost use Rattle.sheet_engine.specs.Growth.{AddsArea, HasWorkspaces};
ghost use Rattle.sheet_geometry.specs.Forms.{form_of};

use lists::list::List;
use lists::memory::{push, vec_of};
use page_model::parts::{OutOfMemory, Tints};
use sheet_engine::counting::no_sheet_counts;
use sheet_engine::counts::SheetCounts;
use sheet_engine::rows::strip_tints;
use sheet_engine::workspace::{RowPlan, StripWorkspace, trap_strip_in};
use sheet_geometry::spans::{Ruler, Span, spans_of};
use sheet_geometry::window_sheet::Sheet;
use std::alloc::Global;
use std::thread::Threads;

/// A sheet after trapping: the new tints of each plate, row by row, and the counts.
#[derive(Drop)]
pub struct TrappedSheet {
    pub tints: List<Tints>,
    pub counts: SheetCounts,
}

/// Appends tints to those of plate c.
fn extend_plate(
    alloc: Global,
    out: &mut List<Tints>,
    c: usize,
    tints: &[u16],
) -> Result<(), OutOfMemory>
    requires { c < length out.old }
    ensures { OnOk result (out.new
        ≡ slice_set out.old c (slice_index_or out.old c [] ++ tints.now)) }
{
    let mut plate = out.set(c, List::new(alloc)).into_vec();
    if plate.extend_from_slice(tints).is_err() {
        return Err(OutOfMemory);
    }
    let _empty = out.set(c, List::from_vec(plate));
    Ok(())
}

/// Appends the new tints of the strip that was trapped last to those of the strips above it, plate by plate. `line` is
/// a buffer for a row.
fn add_strip(
    alloc: Global,
    sheet: &Sheet,
    across: &Ruler,
    down: &Ruler,
    row: &Span,
    workspace: &StripWorkspace,
    line: &mut [u16],
    out: &mut List<Tints>,
) -> Result<(), OutOfMemory>
    requires rulers { AreRulersFor traps sheet.now across.now down.now }
    requires columns { AreSpans across.now 0 (columns_in workspace.now) (width sheet.now) }
    requires row { IsSomeSpan down.now row.now }
    requires tiles { tiles_in workspace.now ≡ map (planes_of sheet.now row.now) (columns_in
        workspace.now) }
    requires line { length line.old ≡ width sheet.now }
    requires plates { length out.old ≡ plates sheet.now }
    ensures line { length line.new ≡ length line.old }
    ensures out { OnOk result (HasStrip sheet.now (columns_in workspace.now) row.now out.old out.new) }
{
    for c in 0..sheet.plates() {
        let tints = strip_tints(alloc, sheet, across, down, row, workspace, c, line)?;
        extend_plate(alloc, out, c as usize, tints.as_slice())?;
    }
    Ok(())
}

/// An empty list of tints for each plate.
fn no_tints(alloc: Global, sheet: &Sheet) -> Result<List<Tints>, OutOfMemory>
    ensures { IfOk result (λ out. AreTintsTo sheet.now 0 out) }
{
    let mut out = List::new(alloc);
    for _ in 0..sheet.plates() {
        push(&mut out, List::new(alloc))?;
    }
    Ok(out)
}

/// The buffers of the strip before, and the number of rows of its windows.
#[derive(Drop)]
struct KeptWorkspace {
    tall: u32,
    workspace: StripWorkspace,
}

/// The buffers for a strip: those of the strip before, if it has as many rows, or new ones.
fn fit_workspace(
    alloc: Global,
    sheet: &Sheet,
    across: &Ruler,
    down: &Ruler,
    columns: &[Span],
    row: &Span,
    kept: Option<KeptWorkspace>,
) -> Result<StripWorkspace, OutOfMemory>
    requires rulers { AreRulersFor traps sheet.now across.now down.now }
    requires small { AreSmall sheet.now across.now down.now }
    requires columns { All (IsSomeSpan across.now) columns.now }
    requires row { IsSomeSpan down.now row.now }
    requires kept { IfSome kept (IsKept (form_of sheet.now) columns.now) }
    ensures columns { IfOk result (λ workspace. columns_in workspace ≡ columns.now) }
    ensures workspace { IfOk result (IsStripWorkspace (form_of sheet.now) row.now.wide) }
{
    if let Some(before) = kept {
        if before.tall == row.wide {
            return Ok(before.workspace);
        }
    }
    StripWorkspace::new(alloc, sheet, across, down, columns, row)
}

/// How a sheet is cut, and by how many workers it is trapped.
#[derive(Clone, Copy, Drop)]
struct SheetCut<'a> {
    across: &'a Ruler,
    down: &'a Ruler,
    columns: &'a [Span],
    rows: &'a [Span],
    workers: usize,
}

/// A sheet that is being trapped: the new tints of its upper strips, their counts, and a buffer for a row.
#[derive(Drop)]
struct SheetWork {
    line: Vec<u16>,
    tints: List<Tints>,
    counts: SheetCounts,
}

/// Traps a strip, and appends its new tints to those of the strips above it. Returns the buffers that it used.
fn trap_row<H: Threads + Sync>(
    rt: &H,
    alloc: Global,
    sheet: &Sheet,
    cut: &SheetCut<'_>,
    row: &Span,
    at: u32,
    kept: Option<KeptWorkspace>,
    work: &mut SheetWork,
) -> Result<KeptWorkspace, OutOfMemory>
    requires some_workers { 1 ≤ cut.now.workers }
    requires rulers { AreRulersFor traps sheet.now cut.now.across.now cut.now.down.now }
    requires small { AreSmall sheet.now cut.now.across.now cut.now.down.now }
    requires columns { AreSpans cut.now.across.now 0 cut.now.columns.now (width sheet.now) }
    requires some { All (IsSomeSpan cut.now.across.now) cut.now.columns.now }
    requires row { IsSpan cut.now.down.now at row.now }
    requires some_row { IsSomeSpan cut.now.down.now row.now }
    requires kept { IfSome kept (IsKept (form_of sheet.now) cut.now.columns.now) }
    requires line { length work.old.line.items ≡ width sheet.now }
    requires plates { length work.old.tints ≡ plates sheet.now }
    requires workspace { HasWorkspaces sheet.now (width sheet.now * row.now.core) work.old.counts }
    ensures kept { IfOk result (IsKept (form_of sheet.now) cut.now.columns.now) }
    ensures line { length work.new.line.items ≡ length work.old.line.items }
    ensures tints { OnOk result (HasStrip sheet.now cut.now.columns.now row.now work.old.tints
        work.new.tints) }
    ensures counts { OnOk result (AddsArea sheet.now 0 at (width sheet.now) row.now.core
        work.old.counts work.new.counts) }
{
    let (across, down) = (cut.across, cut.down);
    let mut workspace = fit_workspace(alloc, sheet, across, down, cut.columns, row, kept)?;
    let plan = RowPlan {
        across: *across,
        down: *down,
        row: *row,
        at,
    };
    let counts = &mut work.counts;
    trap_strip_in(rt, sheet, &plan, cut.workers, &mut workspace, counts);
    let line = work.line.as_mut_slice();
    add_strip(
        alloc,
        sheet,
        across,
        down,
        row,
        &workspace,
        line,
        &mut work.tints,
    )?;
    let tall = row.wide;
    Ok(KeptWorkspace { tall, workspace })
}

/// Traps the strips of these rows, from the top down, into planes without tints and counts of nothing.
fn trap_rows<H: Threads + Sync>(
    rt: &H,
    alloc: Global,
    sheet: &Sheet,
    cut: &SheetCut<'_>,
    work: &mut SheetWork,
) -> Result<(), OutOfMemory>
    requires some_workers { 1 ≤ cut.now.workers }
    requires rulers { AreRulersFor traps sheet.now cut.now.across.now cut.now.down.now }
    requires small { AreSmall sheet.now cut.now.across.now cut.now.down.now }
    requires columns { AreSpans cut.now.across.now 0 cut.now.columns.now (width sheet.now) }
    requires rows { AreSpans cut.now.down.now 0 cut.now.rows.now (height sheet.now) }
    requires line { length work.old.line.items ≡ width sheet.now }
    requires tints { AreTintsTo sheet.now 0 work.old.tints }
    requires counts { AreNone sheet.now work.old.counts }
    ensures tints { OnOk result (AreTintsTo sheet.now (height sheet.now) work.new.tints) }
    ensures counts { OnOk result (AddsArea sheet.now 0 0 (width sheet.now) (height sheet.now)
        work.old.counts work.new.counts) }
{
    let _valid = sheet.width();
    let mut kept = None;
    let mut at = 0;
    for row in cut.rows {
        let workspace = trap_row(rt, alloc, sheet, cut, row, at, kept, work)?;
        kept = Some(workspace);
        at += row.core;
    }
    Ok(())
}

/// Traps a sheet that is cut into these columns and rows.
fn trap_cut<H: Threads + Sync>(
    rt: &H,
    alloc: Global,
    sheet: &Sheet,
    cut: &SheetCut<'_>,
) -> Result<TrappedSheet, OutOfMemory>
    requires some_workers { 1 ≤ cut.now.workers }
    requires rulers { AreRulersFor traps sheet.now cut.now.across.now cut.now.down.now }
    requires small { AreSmall sheet.now cut.now.across.now cut.now.down.now }
    requires columns { AreSpans cut.now.across.now 0 cut.now.columns.now (width sheet.now) }
    requires rows { AreSpans cut.now.down.now 0 cut.now.rows.now (height sheet.now) }
    ensures tints { IfOk result (λ trapped. AreTintsTo sheet.now (height sheet.now) trapped.tints) }
    ensures counts { IfOk result (λ trapped. HasArea sheet.now 0 0 (width sheet.now)
        (height sheet.now) trapped.counts) }
{
    let counts = no_sheet_counts(alloc, sheet)?;
    let tints = no_tints(alloc, sheet)?;
    let line = vec_of(alloc, 0u16, sheet.width() as usize)?;
    let mut work = SheetWork {
        line,
        tints,
        counts,
    };
    trap_rows(rt, alloc, sheet, cut, &mut work)?;
    let SheetWork {
        line: _line,
        tints,
        counts,
    } = work;
    Ok(TrappedSheet { tints, counts })
}

/// Traps a sheet of any sides, window by window, by rulers for its columns and rows. The tints, `width * height` for
/// each plate, row by row from the top, and the counts are those of the undivided sheet, wherever it is cut. It fails
/// only where memory runs out.
pub fn trap_sheet<H: Threads + Sync>(
    rt: &H,
    alloc: Global,
    sheet: &Sheet,
    across: &Ruler,
    down: &Ruler,
    workers: usize,
) -> Result<TrappedSheet, OutOfMemory>
    requires some_workers { 1 ≤ workers }
    requires rulers { AreRulersFor traps sheet.now across.now down.now }
    requires small { AreSmall sheet.now across.now down.now }
    requires across { IsRuler across.now }
    requires down { IsRuler down.now }
    ensures count { IfOk result (λ trapped. length trapped.tints ≡ plates sheet.now) }
    ensures tints { IfOk result (λ trapped. (c : ℕ) → c < plates sheet.now
        → slice_index_or trapped.tints c [] ≡ new_tints sheet.now c) }
    ensures counts { IfOk result (λ trapped. IsCounted sheet.now trapped.counts) }
{
    let columns = spans_of(alloc, across)?;
    let rows = spans_of(alloc, down)?;
    let cut = SheetCut {
        across,
        down,
        columns: columns.as_slice(),
        rows: rows.as_slice(),
        workers,
    };
    trap_cut(rt, alloc, sheet, &cut)
}
