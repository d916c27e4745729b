// The buffers that the windows of strips of one form are trapped with. They are allocated once.

ghost use Rattle.std.specs.Prelude.{◌≡◌, ◌<◌, ◌≤◌, ◌+◌, ◌*◌, ℕ, All, IfOk, map, length, slice_index_or};
ghost use Rattle.page_model.specs.Page.{plates, width};
ghost use Rattle.sheet_geometry.specs.Areas.{traps};
ghost use Rattle.sheet_geometry.specs.Plans.{AreRulersFor, AreSmall};
ghost use Rattle.sheet_geometry.specs.Spans.{AreSpans, IsSpan};
ghost use Rattle.sheet_engine.specs.declared.workspace.WindowWorkspace.{WindowWorkspace};
ghost use Rattle.sheet_engine.specs.Workspaces.{IsStripWorkspace, IsTrappedIn, IsWindowOf, IsWindowWorkspace, columns_in, tiles_in};
ghost use Rattle.sheet_engine.specs.Strips.{IsSomeSpan, planes_of};
ghost use Rattle.sheet_engine.specs.Works.{AreNone};
ghost use Rattle.sheet_engine.specs.Growth.{AddsArea, HasWorkspaces};
ghost use Rattle.sheet_geometry.specs.Forms.{form_of};

use crate::counting::{add_sheet_counts, no_sheet_counts};
use crate::counts::SheetCounts;
use crate::tile::trap_tile_in;
use lists::list::List;
use lists::memory::push;
use page_model::page::Page;
use page_model::parts::OutOfMemory;
use sheet_geometry::cuts::Cut;
use sheet_geometry::spans::{Ruler, Span};
use sheet_geometry::window_sheet::Sheet;
use std::alloc::Global;
use std::thread;
use std::thread::Threads;
use strip_engine::PageWorkspace;

/// A window of strips: its columns, the buffers that it is trapped with, and the counts of its core.
#[derive(Drop)]
pub struct WindowWorkspace {
    pub alloc: Global,
    pub column: Span,
    /// The page that it showed last. It is `None` only within a call.
    pub page: Option<Page>,
    pub workspace: PageWorkspace,
    pub counts: SheetCounts,
}

/// The buffers for all windows of a strip.
#[derive(Drop)]
pub struct StripWorkspace {
    pub windows: Vec<WindowWorkspace>,
}

/// The window of these columns and rows.
fn cut_of(column: &Span, row: &Span) -> Cut
    ensures { result ≡ record { left = column.now.from; top = row.now.from; width = column.now.wide; height = row.now.wide } }
{
    Cut {
        left: column.from,
        top: row.from,
        width: column.wide,
        height: row.wide,
    }
}

/// Allocates the buffers for a window of a strip, the small ones first, so that little has to be freed where memory runs
/// out.
fn window_workspace(
    alloc: Global,
    strip: &Sheet,
    across: &Ruler,
    down: &Ruler,
    column: &Span,
    row: &Span,
) -> Result<WindowWorkspace, OutOfMemory>
    requires rulers { AreRulersFor traps strip.now across.now down.now }
    requires small { AreSmall strip.now across.now down.now }
    requires column { IsSomeSpan across.now column.now }
    requires row { IsSomeSpan down.now row.now }
    ensures column { IfOk result (λ window. window.column ≡ column.now) }
    ensures workspace { IfOk result (IsWindowWorkspace (form_of strip.now) row.now.wide) }
{
    let _valid = strip.width();
    let counts = no_sheet_counts(alloc, strip)?;
    let cut = cut_of(column, row);
    let page = strip.window(alloc, &cut)?;
    let workspace = PageWorkspace::new(alloc, &page)?;
    Ok(WindowWorkspace {
        alloc,
        column: *column,
        page: Some(page),
        workspace,
        counts,
    })
}

impl StripWorkspace {
    /// Allocates all buffers that strips of this one's form and number of rows are trapped with, cut into these
    /// columns.
    pub fn new(
        alloc: Global,
        strip: &Sheet,
        across: &Ruler,
        down: &Ruler,
        columns: &[Span],
        row: &Span,
    ) -> Result<StripWorkspace, OutOfMemory>
        requires rulers { AreRulersFor traps strip.now across.now down.now }
        requires small { AreSmall strip.now across.now down.now }
        requires columns { All (IsSomeSpan across.now) columns.now }
        requires row { IsSomeSpan down.now row.now }
        ensures columns { IfOk result (λ workspace. columns_in workspace ≡ columns.now) }
        ensures workspace { IfOk result (IsStripWorkspace (form_of strip.now) row.now.wide) }
    {
        let mut windows = List::new(alloc);
        for column in columns {
            let window = window_workspace(alloc, strip, across, down, column, row)?;
            push(&mut windows, window)?;
        }
        Ok(StripWorkspace {
            windows: windows.into_vec(),
        })
    }
}

/// Sets all counts to 0.
fn clear(sheet: &Sheet, counts: &mut SheetCounts)
    requires zone_samples { length counts.old.zone_samples.items ≡ length sheet.now.zones }
    requires zone_changed { length counts.old.zone_changed.items ≡ length sheet.now.zones }
    requires plate_changed { length counts.old.plate_changed.items ≡ plates sheet.now }
    ensures { AreNone sheet.now counts.new }
{
    counts.zone_samples.as_mut_slice().fill(0);
    counts.zone_changed.as_mut_slice().fill(0);
    counts.plate_changed.as_mut_slice().fill(0);
    counts.edges = 0;
}

/// Traps the window of a strip with its buffers.
fn trap_window_in(
    sheet: &Sheet,
    across: &Ruler,
    down: &Ruler,
    row: &Span,
    at: u32,
    window: &mut WindowWorkspace,
)
    requires rulers { AreRulersFor traps sheet.now across.now down.now }
    requires small { AreSmall sheet.now across.now down.now }
    requires row { IsSpan down.now at row.now }
    requires column { IsWindowOf across.now window.old }
    requires workspace { IsWindowWorkspace (form_of sheet.now) row.now.wide window.old }
    ensures column { window.new.column ≡ window.old.column }
    ensures trapped { IsTrappedIn sheet.now row.now at window.new }
{
    let _valid = sheet.width();
    let column = window.column;
    let cut = cut_of(&column, row);
    let core = Cut {
        left: column.skip,
        top: row.skip,
        width: column.core,
        height: row.core,
    };
    if let Some(before) = window.page.take() {
        let page = sheet.refill(window.alloc, &cut, before);
        clear(sheet, &mut window.counts);
        trap_tile_in(&page, &core, &mut window.workspace, &mut window.counts);
        window.page = Some(page);
    }
}

/// What the windows of a strip have in common: the rulers, the rows, and the sheet's row at which their cores begin.
#[derive(Clone, Copy, Drop)]
pub struct RowPlan {
    pub across: Ruler,
    pub down: Ruler,
    pub row: Span,
    pub at: u32,
}

fn trap_planned_in(sheet: &Sheet, plan: &RowPlan, window: &mut WindowWorkspace)
    requires rulers { AreRulersFor traps sheet.now plan.now.across plan.now.down }
    requires small { AreSmall sheet.now plan.now.across plan.now.down }
    requires row { IsSpan plan.now.down plan.now.at plan.now.row }
    requires column { IsWindowOf plan.now.across window.old }
    requires workspace { IsWindowWorkspace (form_of sheet.now) plan.now.row.wide window.old }
    ensures column { window.new.column ≡ window.old.column }
    ensures trapped { IsTrappedIn sheet.now plan.now.row plan.now.at window.new }
{
    trap_window_in(sheet, &plan.across, &plan.down, &plan.row, plan.at, window);
}

fn trap_each_in<H: Threads + Sync>(
    rt: &H,
    sheet: &Sheet,
    plan: &RowPlan,
    workers: usize,
    windows: &mut [WindowWorkspace],
)
    requires some_workers { 1 ≤ workers }
    requires rulers { AreRulersFor traps sheet.now plan.now.across plan.now.down }
    requires small { AreSmall sheet.now plan.now.across plan.now.down }
    requires row { IsSpan plan.now.down plan.now.at plan.now.row }
    requires columns { All (IsWindowOf plan.now.across) windows.old }
    requires workspaces { All (IsWindowWorkspace (form_of sheet.now) plan.now.row.wide) windows.old }
    ensures count { length windows.new ≡ length windows.old }
    ensures columns { (k : ℕ) (d : WindowWorkspace) → k < length windows.old
        → (slice_index_or windows.new k d).column ≡ (slice_index_or windows.old k d).column }
    ensures trapped { All (IsTrappedIn sheet.now plan.now.row plan.now.at) windows.new }
{
    thread::for_each_mut(
        rt,
        windows,
        workers,
        &|_k: usize, window: &mut WindowWorkspace|
            requires rulers { AreRulersFor traps sheet.now plan.now.across plan.now.down }
            requires small { AreSmall sheet.now plan.now.across plan.now.down }
            requires row { IsSpan plan.now.down plan.now.at plan.now.row }
            requires column { IsWindowOf plan.now.across window.now }
            requires workspace { IsWindowWorkspace (form_of sheet.now) plan.now.row.wide window.now }
            ensures column { window.exit.now.column ≡ window.entry.now.column }
            ensures trapped { IsTrappedIn sheet.entry.now plan.entry.now.row plan.entry.now.at
                window.exit.now }
        { trap_planned_in(sheet, plan, window) },
    );
}

/// Adds the counts of a window whose core begins at that column.
fn add_window(
    sheet: &Sheet,
    row: &Span,
    at: u32,
    left: u32,
    window: &WindowWorkspace,
    counts: &mut SheetCounts,
)
    requires window { IsTrappedIn sheet.now row.now at window.now }
    requires left { window.now.column.from + window.now.column.skip ≡ left }
    requires workspace { HasWorkspaces sheet.now (window.now.column.core * row.now.core) counts.old }
    ensures { AddsArea sheet.now left at window.now.column.core row.now.core counts.old counts.new }
{
    let _valid = sheet.width();
    add_sheet_counts(counts, &window.counts);
}

/// Adds the counts of the windows of a strip.
fn add_windows(
    sheet: &Sheet,
    across: &Ruler,
    row: &Span,
    at: u32,
    windows: &[WindowWorkspace],
    counts: &mut SheetCounts,
)
    requires windows { All (IsTrappedIn sheet.now row.now at) windows.now }
    requires columns { AreSpans across.now 0 (map (λ (w : WindowWorkspace). w.column) windows.now)
        (width sheet.now) }
    requires workspace { HasWorkspaces sheet.now (width sheet.now * row.now.core) counts.old }
    ensures { AddsArea sheet.now 0 at (width sheet.now) row.now.core counts.old counts.new }
{
    let _valid = sheet.width();
    let mut left = 0;
    for k in 0..windows.len() {
        let window = &windows[k];
        add_window(sheet, row, at, left, window, counts);
        left += window.column.core;
    }
}

/// Traps the windows of a strip side by side, by `workers` workers, with buffers for strips of its form and number of
/// rows, and adds the counts of the strip. It allocates nothing. The buffers then have the new tints of the windows.
/// The result depends neither on the workers nor on the strip that was trapped before.
pub fn trap_strip_in<H: Threads + Sync>(
    rt: &H,
    strip: &Sheet,
    plan: &RowPlan,
    workers: usize,
    workspace: &mut StripWorkspace,
    counts: &mut SheetCounts,
)
    requires some_workers { 1 ≤ workers }
    requires rulers { AreRulersFor traps strip.now plan.now.across plan.now.down }
    requires small { AreSmall strip.now plan.now.across plan.now.down }
    requires columns { AreSpans plan.now.across 0 (columns_in workspace.old) (width strip.now) }
    requires row { IsSpan plan.now.down plan.now.at plan.now.row }
    requires windows { IsStripWorkspace (form_of strip.now) plan.now.row.wide workspace.old }
    requires workspace { HasWorkspaces strip.now (width strip.now * plan.now.row.core) counts.old }
    ensures columns { columns_in workspace.new ≡ columns_in workspace.old }
    ensures windows { IsStripWorkspace (form_of strip.now) plan.now.row.wide workspace.new }
    ensures planes { tiles_in workspace.new ≡ map (planes_of strip.now plan.now.row)
        (columns_in workspace.old) }
    ensures counts { AddsArea strip.now 0 plan.now.at (width strip.now) plan.now.row.core counts.old
        counts.new }
{
    trap_each_in(rt, strip, plan, workers, &mut workspace.windows);
    let (across, row) = (&plan.across, &plan.row);
    add_windows(strip, across, row, plan.at, &workspace.windows, counts);
}
