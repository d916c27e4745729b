// The memory that a sheet is streamed through.

ghost use Rattle.std.specs.Prelude.{◌≡◌, ◌*◌, ◌<◌, ◌≤◌, ◌^◌, All, IfOk, length};
ghost use Rattle.sheet_geometry.specs.Outline.{IsOutlineSheet};
ghost use Rattle.page_model.specs.Page.{plates, width};
ghost use Rattle.sheet_stream.specs.Going.{IsNextRow, not_begun};
ghost use Rattle.sheet_stream.specs.Strips.{CanBeCut, CanStream};
ghost use Rattle.sheet_stream.specs.Workspaces.{IsBlankStrip, IsWorkspaceFor, IsStreamWorkspace};
ghost use Rattle.sheet_geometry.specs.Spans.{AreSpans, IsRuler};
ghost use Rattle.sheet_stream.specs.OnSheet.{strip_cut};
ghost use Rattle.sheet_engine.specs.Strips.{IsSomeSpan};
ghost use Rattle.sheet_engine.specs.Works.{AreNone};
ghost use Rattle.sheet_geometry.specs.WindowSheets.{IsCuttable};

use crate::beside::no_parts;
use crate::parts::{StripPlan, cut_of};
use crate::rows::{Progress, next_row};
use crate::stored_strip::first_strip;
use crate::strip::CoreWorkspace;
use lists::memory::vec_of;
use page_model::parts::{OutOfMemory, PageParts};
use sheet_engine::counting::no_sheet_counts;
use sheet_engine::counts::SheetCounts;
use sheet_engine::workspace::StripWorkspace;
use sheet_geometry::spans::{Span, spans_of};
use sheet_geometry::window_sheet::Sheet;
use std::alloc::Global;

// The greatest number of bytes of a plate that are read at a time, and of its samples that are written at a time.
const PIECE: usize = 65_536;

/// What a sheet is streamed with: the current strip; the other strip, which was trapped before it and becomes the next
/// one once its core is written; the buffers for the windows of each, in turn, the second with those to write a core;
/// the counts so far; and the buffer for the bytes that are read at a time.
#[derive(Drop)]
pub struct StreamWorkspace {
    pub strip: Sheet,
    pub ahead: PageParts,
    pub windows: StripWorkspace,
    pub core: CoreWorkspace,
    pub counts: SheetCounts,
    pub pieces: Vec<u8>,
}

/// Allocates all memory that a sheet is streamed with, with all counts 0. It fails only where memory runs out.
pub fn stream_workspace(
    alloc: Global,
    outline: &PageParts,
    plan: &StripPlan,
) -> Result<StreamWorkspace, OutOfMemory>
    requires can { CanStream outline.now plan.now }
    requires across { IsRuler plan.now.across }
    ensures workspace { IfOk result (IsStreamWorkspace outline.now plan.now) }
    ensures counts { IfOk result (λ workspace. AreNone outline.now workspace.counts) }
{
    let top = Progress {
        at: 0,
        from: 0,
        read: 0,
    };
    let row = next_row(&plan.down, top);
    let columns = spans_of(alloc, &plan.across)?;
    let strip = first_strip(alloc, outline, &row)?;
    let ahead = first_strip(alloc, outline, &row)?;
    workspace_of(alloc, outline, plan, &row, columns.as_slice(), strip, ahead)
}

// Does the same with two strips of tints 0, cut into these columns.
fn workspace_of(
    alloc: Global,
    outline: &PageParts,
    plan: &StripPlan,
    row: &Span,
    columns: &[Span],
    strip: PageParts,
    ahead: PageParts,
) -> Result<StreamWorkspace, OutOfMemory>
    requires can { CanStream outline.now plan.now }
    requires row { IsNextRow plan.now.down not_begun row.now }
    requires columns { AreSpans plan.now.across 0 columns.now (width outline.now) }
    requires strip { IsBlankStrip outline.now row.now strip }
    requires ahead { IsBlankStrip outline.now row.now ahead }
    ensures workspace { IfOk result (IsStreamWorkspace outline.now plan.now) }
    ensures counts { IfOk result (λ workspace. AreNone outline.now workspace.counts) }
{
    let sheet = Sheet::of(strip);
    match means_of(alloc, outline, plan, row, columns, &sheet) {
        Ok(means) => Ok(StreamWorkspace {
            strip: sheet,
            ahead,
            windows: means.windows,
            core: means.core,
            counts: means.counts,
            pieces: means.pieces,
        }),
        Err(OutOfMemory) => Err(OutOfMemory),
    }
}

// The buffers that strips are trapped, counted and read with.
#[derive(Drop)]
struct Means {
    windows: StripWorkspace,
    core: CoreWorkspace,
    counts: SheetCounts,
    pieces: Vec<u8>,
}

// Allocates all that a strip of these rows needs beside itself. What is small comes first, so that little has to be
// freed where memory runs out.
fn means_of(
    alloc: Global,
    outline: &PageParts,
    plan: &StripPlan,
    row: &Span,
    columns: &[Span],
    strip: &Sheet,
) -> Result<Means, OutOfMemory>
    requires outline { IsOutlineSheet outline.now }
    requires narrow { width outline.now < 2 ^ 30 }
    requires columns { All (IsSomeSpan plan.now.across) columns.now }
    requires cut { CanBeCut strip.now (strip_cut plan.now.across plan.now.down row.now) }
    ensures one { IfOk result (λ means. IsWorkspaceFor strip.now row.now columns.now means.windows) }
    ensures other { IfOk result (λ means. IsWorkspaceFor strip.now row.now columns.now means.core.windows) }
    ensures line { IfOk result (λ means. plates outline.now * width outline.now
        ≤ length means.core.line.items) }
    ensures bytes { IfOk result (λ means. 2 ≤ length means.core.bytes.items) }
    ensures pieces { IfOk result (λ means. 2 ≤ length means.pieces.items) }
    ensures counts { IfOk result (λ means. AreNone strip.now means.counts) }
{
    let pieces = vec_of(alloc, 0u8, PIECE)?;
    let counts = no_sheet_counts(alloc, strip)?;
    let core = second_workspace(alloc, outline, plan, row, columns, strip)?;
    let windows = windows_of(alloc, plan, row, columns, strip)?;
    Ok(Means {
        windows,
        core,
        counts,
        pieces,
    })
}

// Allocates the second buffers for the windows of a strip of these rows, with those to write its core.
fn second_workspace(
    alloc: Global,
    outline: &PageParts,
    plan: &StripPlan,
    row: &Span,
    columns: &[Span],
    strip: &Sheet,
) -> Result<CoreWorkspace, OutOfMemory>
    requires outline { IsOutlineSheet outline.now }
    requires narrow { width outline.now < 2 ^ 30 }
    requires columns { All (IsSomeSpan plan.now.across) columns.now }
    requires cut { CanBeCut strip.now (strip_cut plan.now.across plan.now.down row.now) }
    ensures windows { IfOk result (λ core. IsWorkspaceFor strip.now row.now columns.now core.windows) }
    ensures line { IfOk result (λ core. plates outline.now * width outline.now ≤ length core.line.items) }
    ensures bytes { IfOk result (λ core. 2 ≤ length core.bytes.items) }
{
    let windows = windows_of(alloc, plan, row, columns, strip)?;
    core_workspace(alloc, outline, windows)
}

// Allocates the buffers for the windows of a strip of these rows.
fn windows_of(
    alloc: Global,
    plan: &StripPlan,
    row: &Span,
    columns: &[Span],
    strip: &Sheet,
) -> Result<StripWorkspace, OutOfMemory>
    requires columns { All (IsSomeSpan plan.now.across) columns.now }
    requires cut { CanBeCut strip.now (strip_cut plan.now.across plan.now.down row.now) }
    ensures { IfOk result (IsWorkspaceFor strip.now row.now columns.now) }
{
    let cut = cut_of(plan, row);
    StripWorkspace::new(alloc, strip, &cut.across, &cut.down, columns, &cut.row)
}

// With a buffer for as many rows of all plates as make a piece of one plate at most, or for one row, and a buffer of
// two bytes for each sample of a piece.
fn core_workspace(
    alloc: Global,
    outline: &PageParts,
    windows: StripWorkspace,
) -> Result<CoreWorkspace, OutOfMemory>
    requires outline { IsOutlineSheet outline.now }
    requires narrow { width outline.now < 2 ^ 30 }
    ensures windows { IfOk result (λ core. core.windows ≡ windows) }
    ensures line { IfOk result (λ core. plates outline.now * width outline.now ≤ length core.line.items) }
    ensures bytes { IfOk result (λ core. 2 ≤ length core.bytes.items) }
{
    let planes = outline.planes.as_slice();
    let wide = planes[0].width as usize;
    let line = vec_of(alloc, 0u16, planes.len() * wide.max(PIECE))?;
    let bytes = vec_of(alloc, 0u8, 2 * PIECE)?;
    Ok(CoreWorkspace {
        windows,
        line,
        bytes,
    })
}

/// Exchanges the strips, and the buffers for their windows: the strip that was read becomes the current one, and the
/// strip that was trapped is written from the second buffers.
pub fn change_places(alloc: Global, workspace: &mut StreamWorkspace)
    requires { IsCuttable workspace.old.ahead }
    ensures strip { workspace.new.strip ≡ workspace.old.ahead }
    ensures ahead { workspace.new.ahead ≡ workspace.old.strip }
    ensures windows { workspace.new.windows ≡ workspace.old.core.windows }
    ensures trapped { workspace.new.core.windows ≡ workspace.old.windows }
    ensures line { length workspace.new.core.line.items ≡ length workspace.old.core.line.items }
    ensures bytes { length workspace.new.core.bytes.items ≡ length workspace.old.core.bytes.items }
    ensures counts { workspace.new.counts ≡ workspace.old.counts }
    ensures pieces { length workspace.new.pieces.items ≡ length workspace.old.pieces.items }
{
    let next = Sheet::of(std::mem::replace(&mut workspace.ahead, no_parts(alloc)));
    let last = std::mem::replace(&mut workspace.strip, next);
    workspace.ahead = last.into_parts();
    std::mem::swap(&mut workspace.windows, &mut workspace.core.windows);
}
