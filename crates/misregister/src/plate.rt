// One plate of a sheet, row by row.

ghost use Rattle.std.specs.Prelude.{◌≡◌, ◌+◌, ◌-◌, ◌<◌, ◌≤◌, ◌*◌, ℕ, List, min, nat_lt, length, slice_index, if◌then◌else◌};
ghost use Rattle.page_model.specs.Shapes.{wide, tall};
ghost use Rattle.misregister.specs.Sweep.{HasWorkspace, IsRowPut, IsUnderWay, KeepsMemory, at, shade};
ghost use Rattle.misregister.specs.Limits.{most_radius};

use crate::row::put_near;
use crate::sheet::Sheet;
use crate::workspace::Workspace;
use page_model::steps::Steps;
use std::sync::ledger::Ledger;

/// Lowers the shades of row y to those of the plate's row, where these are lower.
fn darken_row(shades: &mut [u8], y: usize, row: &[u8])
    requires place { (y + 1) * length row.now ≤ length shades.old }
    ensures { IsRowPut shades.old shades.new (length row.now) y
        (λ x. min (at shades.old (length row.now) y x) (slice_index row.now x)) }
{
    let first = y * row.len();
    for x in 0..row.len() {
        shades[first + x] = shades[first + x].min(row[x]);
    }
}

/// Sets those samples of row y to "not at risk" that no row bares.
fn close_row(shades: &mut [u8], y: u32, until: &[u32])
    requires place { (y + 1) * length until.now ≤ length shades.old }
    ensures { IsRowPut shades.old shades.new (length until.now) y
        (λ x. if nat_lt y (slice_index until.now x)
        then at shades.old (length until.now) y x else 0) }
{
    let first = y as usize * until.len();
    for x in 0..until.len() {
        shades[first + x] = if y < until[x] { shades[first + x] } else { 0 };
    }
}

/// Reads row y of plate c, and notes where it has no ink and which columns the row bares.
fn enter_row<L: Ledger>(
    sheet: &Sheet,
    c: u32,
    y: u32,
    radius: u32,
    workspace: &mut Workspace,
    steps: &mut Steps<L>,
)
    requires plate { c < length sheet.now }
    requires row { y < tall sheet.now }
    requires radius { radius ≤ most_radius }
    requires workspace { HasWorkspace sheet.now workspace.old }
    ensures workspace { HasWorkspace sheet.now workspace.new }
    ensures memory { KeepsMemory workspace.old workspace.new }
    ensures entered { (older : List ℕ) (left : ℕ) → left ≤ y
        → IsUnderWay sheet.now radius c older workspace.old y left
        → IsUnderWay sheet.now radius c older workspace.new (y + 1) left }
    ensures steps { steps.new ≡ steps.old + wide sheet.now }
{
    let _height = sheet.height();
    sheet.outline_row(c, y, workspace.row.as_mut_slice(), steps);
    let row = workspace.row.as_slice();
    darken_row(workspace.shades.as_mut_slice(), y as usize, row);
    put_near(
        row,
        radius as usize,
        y + radius + 1,
        workspace.until.as_mut_slice(),
    );
}

/// Finishes row y, after all rows near it were read.
fn leave_row(sheet: &Sheet, y: u32, workspace: &mut Workspace)
    requires row { y < tall sheet.now }
    requires workspace { HasWorkspace sheet.now workspace.old }
    ensures workspace { HasWorkspace sheet.now workspace.new }
    ensures memory { KeepsMemory workspace.old workspace.new }
    ensures left { (radius c : ℕ) (older : List ℕ) (entered : ℕ) → entered
        ≡ min (y + radius + 1) (tall sheet.now)
        → IsUnderWay sheet.now radius c older workspace.old entered y
        → IsUnderWay sheet.now radius c older workspace.new entered (y + 1) }
{
    let until = workspace.until.as_slice();
    close_row(workspace.shades.as_mut_slice(), y, until);
}

/// Reads the first rows of plate c.
fn enter_rows<L: Ledger>(
    sheet: &Sheet,
    c: u32,
    rows: u32,
    radius: u32,
    workspace: &mut Workspace,
    steps: &mut Steps<L>,
)
    requires plate { c < length sheet.now }
    requires rows { rows ≤ tall sheet.now }
    requires radius { radius ≤ most_radius }
    requires workspace { HasWorkspace sheet.now workspace.old }
    ensures workspace { HasWorkspace sheet.now workspace.new }
    ensures memory { KeepsMemory workspace.old workspace.new }
    ensures entered { (older : List ℕ) → IsUnderWay sheet.now radius c older workspace.old 0 0
        → IsUnderWay sheet.now radius c older workspace.new rows 0 }
    ensures steps { steps.new ≡ steps.old + wide sheet.now * rows }
{
    for y in 0..rows {
        enter_row(sheet, c, y, radius, workspace, steps);
    }
}

/// Reads each other row of plate c, and finishes the row that is `radius` above it.
fn pass_rows<L: Ledger>(
    sheet: &Sheet,
    c: u32,
    rows: u32,
    radius: u32,
    workspace: &mut Workspace,
    steps: &mut Steps<L>,
)
    requires plate { c < length sheet.now }
    requires rows { rows ≡ tall sheet.now - radius }
    requires radius { radius ≤ most_radius }
    requires workspace { HasWorkspace sheet.now workspace.old }
    ensures workspace { HasWorkspace sheet.now workspace.new }
    ensures memory { KeepsMemory workspace.old workspace.new }
    ensures passed { (older : List ℕ)
        → IsUnderWay sheet.now radius c older workspace.old (min radius (tall sheet.now)) 0
        → IsUnderWay sheet.now radius c older workspace.new (tall sheet.now) rows }
    ensures steps { steps.new ≡ steps.old + wide sheet.now * rows }
{
    let _height = sheet.height();
    for y in 0..rows {
        enter_row(sheet, c, y + radius, radius, workspace, steps);
        leave_row(sheet, y, workspace);
    }
}

/// Finishes the last rows, after all rows were read.
fn leave_rows(sheet: &Sheet, first: u32, height: u32, workspace: &mut Workspace)
    requires height { height ≡ tall sheet.now }
    requires workspace { HasWorkspace sheet.now workspace.old }
    ensures workspace { HasWorkspace sheet.now workspace.new }
    ensures memory { KeepsMemory workspace.old workspace.new }
    ensures left { (radius c : ℕ) (older : List ℕ) → tall sheet.now ≤ first + radius
        → first ≤ height
        → IsUnderWay sheet.now radius c older workspace.old (tall sheet.now) first
        → IsUnderWay sheet.now radius c older workspace.new (tall sheet.now) (tall sheet.now) }
{
    for y in first..height {
        leave_row(sheet, y, workspace);
    }
}

/// Sets all columns to: not bared yet.
fn begin(until: &mut [u32])
    ensures { (x : ℕ) → x < length until.old → slice_index until.new x ≡ 0 }
{
    for cell in until.iter_mut() {
        *cell = 0;
    }
}

/// Lowers the shades by plate c, each of whose samples is read once.
pub(crate) fn shade_plate<L: Ledger>(
    sheet: &Sheet,
    c: u32,
    height: u32,
    radius: u32,
    workspace: &mut Workspace,
    steps: &mut Steps<L>,
)
    requires plate { c < length sheet.now }
    requires height { height ≡ tall sheet.now }
    requires radius { radius ≤ most_radius }
    requires workspace { HasWorkspace sheet.now workspace.old }
    ensures workspace { HasWorkspace sheet.now workspace.new }
    ensures memory { KeepsMemory workspace.old workspace.new }
    ensures shades { (x y : ℕ) → x < wide sheet.now → y < tall sheet.now
        → at workspace.new.shades.items (wide sheet.now) y x
        ≡ min (at workspace.old.shades.items (wide sheet.now) y x) (shade sheet.now radius c x y) }
    ensures steps { steps.new ≡ steps.old + wide sheet.now * tall sheet.now }
{
    begin(workspace.until.as_mut_slice());
    let lead = radius.min(height);
    enter_rows(sheet, c, lead, radius, workspace, steps);
    pass_rows(sheet, c, height - lead, radius, workspace, steps);
    leave_rows(sheet, height - lead, height, workspace);
}
