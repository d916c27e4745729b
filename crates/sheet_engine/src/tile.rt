// The tile of a sheet: its window, a page, is trapped, and the counts of its core are added.

ghost use Rattle.std.specs.Prelude.{◌≡◌, ◌<◌, ◌≤◌, ◌+◌, ◌*◌, ℕ, IfOk, OnOk, false, length, slice_index, slice_index_or};
ghost use Rattle.page_model.specs.Counts.{sample_changes};
ghost use Rattle.page_model.specs.Page.{height, plates, width};
ghost use Rattle.page_model.specs.Tints.{new, trapped_planes};
ghost use Rattle.page_model.specs.Zones.{AreZones};
ghost use Rattle.sheet_geometry.specs.Areas.{changes_in, changes_plate, traps};
ghost use Rattle.page_tally.specs.Shapes.{shape_of};
ghost use Rattle.page_tally.specs.Standing.{AreTrappedTo, IsTrappedTo};
ghost use Rattle.page_tally.specs.Uncounted.{HasTints};
ghost use Rattle.strip_engine.specs.StripBuffers.{AreBuffers};
ghost use Rattle.strip_engine.specs.Workspaces.{IsWorkspaceFor};
ghost use Rattle.sheet_engine.specs.Growth.{AddsArea, AddsRow, Grows, HasWorkspace, HasWorkspaces, LiesOn, row_sum};

use crate::counts::SheetCounts;
use crate::tile_rows::{add_changed, add_zones, edges_of, plate_changes_in};
use page_model::page::Page;
use page_model::parts::{OutOfMemory, Plane, PlaneList};
use page_tally::{are_clear, note_changes};
use row_values::{row_of, tints_of_row};
use sheet_geometry::cuts::Cut;
use std::alloc::Global;
use strip_engine::{PageWorkspace, StripBuffers, marks_of_row, zones_of_row};

/// Row y of the plane of plate c, which has the new tints of the whole page.
fn row_of_plane<'a>(page: &Page, plane: &'a Plane, y: u32, c: u32) -> &'a [u16]
    requires plane { IsTrappedTo page.now c (height page.now * width page.now) plane.now }
    requires row { y < height page.now }
    ensures len { length result.now ≡ width page.now }
    ensures news { (x : ℕ) → x < width page.now
        → slice_index result.now x ≡ new page.now (record { x = x; y = y }) c }
{
    let width = page.width() as usize;
    row_of(plane.tints.as_slice(), width, y as usize)
}

/// The new tints of plate c in row y.
fn new_row<'a>(page: &Page, planes: &'a [Plane], y: u32, c: u32) -> &'a [u16]
    requires planes { AreTrappedTo page.now planes.now (height page.now * width page.now) }
    requires plate { c < plates page.now }
    requires row { y < height page.now }
    ensures len { length result.now ≡ width page.now }
    ensures news { (x : ℕ) → x < width page.now
        → slice_index result.now x ≡ new page.now (record { x = x; y = y }) c }
{
    let _valid = page.plates();
    row_of_plane(page, &planes[c as usize], y, c)
}

/// Adds for each plate the number of these samples of row y that change.
fn add_plates(page: &Page, planes: &[Plane], y: u32, left: usize, wide: usize, counts: &mut [u64])
    requires planes { AreTrappedTo page.now planes.now (height page.now * width page.now) }
    requires row { y < height page.now }
    requires inside { left + wide ≤ width page.now }
    requires workspace { HasWorkspace (plates page.now) wide counts.old }
    ensures { Grows (plates page.now) (λ c. row_sum (changes_plate traps c page.now) y left wide)
        counts.old counts.new }
{
    let _valid = page.plates();
    for c in 0..page.plates() {
        let before = tints_of_row(page, c, y);
        let after = new_row(page, planes, y, c);
        counts[c as usize] += plate_changes_in(page, before, after, y, c, left, wide);
    }
}

/// Adds for each zone, and for each plate, the number of these samples of row y that change. Where none is marked as
/// changed, nothing is done.
fn add_changes(
    page: &Page,
    planes: &[Plane],
    zones: &[u8],
    changes: &[bool],
    y: u32,
    left: usize,
    wide: usize,
    counts: &mut SheetCounts,
)
    requires planes { AreTrappedTo page.now planes.now (height page.now * width page.now) }
    requires zones { AreZones page.now y zones.now }
    requires changes { length changes.now ≡ width page.now }
    requires each { (x : ℕ) → x < width page.now → slice_index_or changes.now x false
        ≡ sample_changes page.now (record { x = x; y = y }) }
    requires row { y < height page.now }
    requires inside { left + wide ≤ width page.now }
    requires zone_workspace { HasWorkspace (length page.now.zones) wide counts.old.zone_changed.items }
    requires plate_workspace { HasWorkspace (plates page.now) wide counts.old.plate_changed.items }
    ensures zone_changed { Grows (length page.now.zones)
        (λ z. row_sum (changes_in traps z page.now) y left wide)
        counts.old.zone_changed.items counts.new.zone_changed.items }
    ensures plate_changed { Grows (plates page.now)
        (λ c. row_sum (changes_plate traps c page.now) y left wide)
        counts.old.plate_changed.items counts.new.plate_changed.items }
    ensures zone_samples { counts.new.zone_samples ≡ counts.old.zone_samples }
    ensures edges { counts.new.edges ≡ counts.old.edges }
{
    if are_clear(changes, left, wide) {
        return;
    }
    add_changed(
        page,
        zones,
        changes,
        y,
        left,
        wide,
        &mut counts.zone_changed,
    );
    add_plates(page, planes, y, left, wide, &mut counts.plate_changed);
}

/// Adds the counts of these samples of row y. `changes` is a buffer for a row.
fn add_row(
    page: &Page,
    planes: &[Plane],
    buffers: &StripBuffers,
    y: u32,
    left: usize,
    wide: usize,
    changes: &mut [bool],
    counts: &mut SheetCounts,
)
    requires planes { AreTrappedTo page.now planes.now (height page.now * width page.now) }
    requires buffers { AreBuffers page.now buffers.now }
    requires row { y < height page.now }
    requires inside { left + wide ≤ width page.now }
    requires changes { length changes.old ≡ width page.now }
    requires workspace { HasWorkspaces page.now wide counts.old }
    ensures changes { length changes.new ≡ width page.now }
    ensures counts { AddsRow page.now y left wide counts.old counts.new }
{
    let zones = zones_of_row(page, &buffers.zones, y);
    let marks = marks_of_row(page, &buffers.marks, y);
    note_changes(page, planes, y, changes);
    add_zones(page, zones, y, left, wide, &mut counts.zone_samples);
    add_changes(page, planes, zones, changes, y, left, wide, counts);
    counts.edges += edges_of(page, marks, y, left, wide);
}

/// Adds the counts of a core, row by row.
fn add_rows(
    page: &Page,
    planes: &[Plane],
    buffers: &StripBuffers,
    core: &Cut,
    changes: &mut [bool],
    counts: &mut SheetCounts,
)
    requires planes { AreTrappedTo page.now planes.now (height page.now * width page.now) }
    requires buffers { AreBuffers page.now buffers.now }
    requires core { LiesOn page.now core.now }
    requires changes { length changes.old ≡ width page.now }
    requires workspace { HasWorkspaces page.now (core.now.width * core.now.height) counts.old }
    ensures changes { length changes.new ≡ width page.now }
    ensures counts { AddsArea page.now core.now.left core.now.top core.now.width core.now.height
        counts.old counts.new }
{
    let _valid = page.plates();
    for k in 0..core.height {
        add_row(
            page,
            planes,
            buffers,
            core.top + k,
            core.left as usize,
            core.width as usize,
            changes,
            counts,
        );
    }
}

/// Adds the counts of a core of the page that was trapped with these buffers last.
fn add_core(page: &Page, core: &Cut, workspace: &mut PageWorkspace, counts: &mut SheetCounts)
    requires shape { IsWorkspaceFor (shape_of page.now) workspace.old }
    requires buffers { AreBuffers page.now workspace.old.buffers }
    requires tints { HasTints page.now (height page.now) workspace.old.outcome }
    requires core { LiesOn page.now core.now }
    requires workspace { HasWorkspaces page.now (core.now.width * core.now.height) counts.old }
    ensures shape { IsWorkspaceFor (shape_of page.now) workspace.new }
    ensures planes { workspace.new.outcome.planes ≡ workspace.old.outcome.planes }
    ensures counts { AddsArea page.now core.now.left core.now.top core.now.width core.now.height
        counts.old counts.new }
{
    add_rows(
        page,
        workspace.outcome.planes.as_slice(),
        &workspace.buffers,
        core,
        &mut workspace.outcome.changes,
        counts,
    );
}

/// Traps the page of a tile's window with buffers for pages of its shape, and adds the counts of its core to those of
/// its sheet. It allocates nothing. `workspace.outcome` then has the page's new tints.
pub fn trap_tile_in(
    page: &Page,
    core: &Cut,
    workspace: &mut PageWorkspace,
    counts: &mut SheetCounts,
)
    requires shape { IsWorkspaceFor (shape_of page.now) workspace.old }
    requires core { LiesOn page.now core.now }
    requires workspace { HasWorkspaces page.now (core.now.width * core.now.height) counts.old }
    ensures shape { IsWorkspaceFor (shape_of page.now) workspace.new }
    ensures planes { workspace.new.outcome.planes ≡ trapped_planes page.now }
    ensures counts { AddsArea page.now core.now.left core.now.top core.now.width core.now.height
        counts.old counts.new }
{
    workspace.trap_uncounted(page);
    add_core(page, core, workspace, counts);
}

/// Traps the page of a tile's window, and adds the counts of its core to those of its sheet. It fails only where memory
/// runs out.
pub fn trap_tile(
    alloc: Global,
    page: &Page,
    core: &Cut,
    counts: &mut SheetCounts,
) -> Result<PlaneList, OutOfMemory>
    requires core { LiesOn page.now core.now }
    requires workspace { HasWorkspaces page.now (core.now.width * core.now.height) counts.old }
    ensures planes { IfOk result (λ planes. planes ≡ trapped_planes page.now) }
    ensures counts { OnOk result (AddsArea page.now core.now.left core.now.top core.now.width
        core.now.height counts.old counts.new) }
{
    let mut workspace = PageWorkspace::new(alloc, page)?;
    workspace.trap_new_uncounted(page);
    add_core(page, core, &mut workspace, counts);
    let outcome = workspace.outcome;
    Ok(outcome.planes)
}
