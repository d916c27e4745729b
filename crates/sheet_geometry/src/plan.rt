// How a sheet is going to be trapped, decided before its tints are read.

ghost use Rattle.std.specs.Prelude.{◌≡◌, ◌⊎◌, ◌+◌, ◌-◌, ◌*◌, ◌<◌, ◌≤◌, ◌^◌, max, length, IfErr, IfOk, OnOk, None, Some};
ghost use Rattle.page_model.specs.Columns.{halo};
ghost use Rattle.page_model.specs.Limits.{most_plates, most_samples, most_side};
ghost use Rattle.page_model.specs.Page.{height, plates, width};
ghost use Rattle.page_model.specs.Reach.{page_reach};
ghost use Rattle.sheet_geometry.specs.CommonErrors.{cut_fault, large_fault, most_step, sheet_error, uncut};
ghost use Rattle.sheet_geometry.specs.Areas.{traps};
ghost use Rattle.sheet_geometry.specs.Plans.{IsStep};
ghost use Rattle.sheet_geometry.specs.Planned.{IsLeast, FitRulers, IsCutBy, IsPlan, IsPlanFor, most_halo};
ghost use Rattle.sheet_geometry.specs.Outline.{IsOutlineSheet, IsOutlineParts};

use crate::budget::{Budget, most_columns, most_rows};
use crate::judging::{cut_fault_of, halo_of, is_large_sheet, parts_fault_of};
use crate::sheet_errors::SheetError;
use crate::spans::Ruler;
use crate::steps::sheet_step;
use page_model::bounds::MOST_SAMPLES;
use page_model::parts::PageParts;

// A window of fewer columns is not worth its cost.
const NARROW: u32 = 128;

/// Rulers for the columns and the rows of a sheet.
#[derive(Clone, Copy, Drop)]
pub struct Rulers {
    pub across: Ruler,
    pub down: Ruler,
}

/// How a sheet is trapped.
#[derive(Clone, Copy, Drop)]
pub enum Plan {
    /// Strip by strip, all of the same number of rows: only one strip is in memory at a time.
    Strips(Rulers),
    /// Window by window, with the whole sheet in memory, since no strips of one height are small enough.
    Windows(Rulers),
    /// As one page, since it is one and can't be cut.
    Page,
}

/// Decides how a sheet that is to be trapped is cut, within a budget for each window, or returns the first of its faults: of the first
/// plate that differs from plate 0, then of the first zone that reaches too far, and then, above the limits of a page,
/// of the first zone with a vertex too far from a corner of the sheet, and of the step. No tint is read.
#[tactic(auto, using(crate::proofs::OutlineLemmas::outline_from))]
pub fn plan_sheet(sheet: &PageParts, budget: &Budget) -> Result<Plan, SheetError>
    requires parts { IsOutlineParts sheet.now }
    requires narrow { width sheet.now < 2 ^ 30 }
    requires low { height sheet.now < 2 ^ 30 }
    ensures plan { IfOk result (IsPlanFor traps sheet.now budget.now) }
    ensures accepted { OnOk result (sheet_error sheet.now ≡ None) }
    ensures valid { OnOk result (IsOutlineSheet sheet.now) }
    ensures refused { IfErr result (λ error. sheet_error sheet.now ≡ Some error) }
{
    match parts_fault_of(sheet) {
        Some(fault) => Err(SheetError::Fault(fault)),
        None => plan_with(sheet, halo_of(sheet), budget),
    }
}

/// Decides how a sheet without a fault of a page is cut, for windows with a halo of so many samples, or why it can't be.
pub fn plan_with(sheet: &PageParts, near: u32, budget: &Budget) -> Result<Plan, SheetError>
    requires sheet { IsOutlineSheet sheet.now }
    requires near { near ≤ most_halo }
    requires narrow { width sheet.now < 2 ^ 30 }
    requires low { height sheet.now < 2 ^ 30 }
    ensures plan { IfOk result (IsPlan near sheet.now budget.now) }
    ensures accepted { OnOk result (large_fault sheet.now ≡ None) }
    ensures refused { IfErr result (λ error. large_fault sheet.now ≡ Some error) }
{
    match cut_fault_of(sheet) {
        None => Ok(plan_cut(sheet, near, budget)),
        Some(error) => {
            if is_large_sheet(sheet) {
                Err(error)
            } else {
                Ok(Plan::Page)
            }
        }
    }
}

// The least window of a sheet: a halo on each side, and a step between them. Where all strips have the same number of
// rows, it is a step more, less a row.
#[derive(Clone, Copy, Drop)]
struct Least {
    halo: u32,
    step: u32,
    columns: u32,
    rows: u32,
}

// How a sheet that can be cut is cut.
fn plan_cut(sheet: &PageParts, near: u32, budget: &Budget) -> Plan
    requires sheet { IsOutlineSheet sheet.now }
    requires near { near ≤ most_halo }
    requires narrow { width sheet.now < 2 ^ 30 }
    requires low { height sheet.now < 2 ^ 30 }
    requires cut { cut_fault sheet.now ≡ None }
    ensures { IsPlan near sheet.now budget.now result }
{
    plan_by(sheet, least_of(sheet, near), budget)
}

fn least_of(sheet: &PageParts, near: u32) -> Least
    requires sheet { IsOutlineSheet sheet.now }
    requires near { near ≤ most_halo }
    requires cut { cut_fault sheet.now ≡ None }
    ensures { IsLeast near sheet.now result }
{
    least_by(sheet, near)
}

fn least_by(sheet: &PageParts, near: u32) -> Least
    requires sheet { IsOutlineSheet sheet.now }
    requires near { near ≤ most_halo }
    requires cut { uncut sheet.now ≡ None }
    ensures { IsLeast near sheet.now result }
{
    let step = sheet_step(sheet);
    let columns = 2 * near.max(1) + step;
    Least {
        halo: near,
        step,
        columns,
        rows: columns + step - 1,
    }
}

fn plan_by(sheet: &PageParts, least: Least, budget: &Budget) -> Plan
    requires sheet { IsOutlineSheet sheet.now }
    requires narrow { width sheet.now < 2 ^ 30 }
    requires low { height sheet.now < 2 ^ 30 }
    requires cut { cut_fault sheet.now ≡ None }
    requires least { IsLeast least.halo sheet.now least }
    ensures { IsPlan least.halo sheet.now budget.now result }
{
    let plates = sheet.planes.len() as u32;
    let samples = u64::from(least.columns) * u64::from(least.rows) * u64::from(plates);
    if samples <= MOST_SAMPLES {
        Plan::Strips(rulers_of(sheet, least, least.rows, budget))
    } else {
        Plan::Windows(rulers_of(sheet, least, least.columns, budget))
    }
}

// The rulers within a budget for windows of at least `rows` rows.
fn rulers_of(sheet: &PageParts, least: Least, rows: u32, budget: &Budget) -> Rulers
    requires sheet { IsOutlineSheet sheet.now }
    requires narrow { width sheet.now < 2 ^ 30 }
    requires low { height sheet.now < 2 ^ 30 }
    requires least { IsLeast least.halo sheet.now least }
    requires workspace { least.columns ≤ rows }
    requires few_rows { rows ≤ most_side }
    requires few_samples { least.columns * rows * plates sheet.now ≤ most_samples }
    ensures { IsCutBy least.halo sheet.now budget.now least rows result }
{
    let planes = sheet.planes.as_slice();
    let plates = planes.len() as u32;
    let rows = most_rows(least.columns, rows, plates, budget);
    let columns = columns_for(planes[0].width, least, rows, plates, budget);
    Rulers {
        across: Ruler {
            side: planes[0].width,
            halo: least.halo,
            step: least.step,
            most: columns,
            from_end: false,
        },
        down: Ruler {
            side: planes[0].height,
            halo: least.halo,
            step: least.step,
            most: rows,
            from_end: true,
        },
    }
}

// The number of columns of the windows, of `rows` rows each: about the same for all.
fn columns_for(side: u32, least: Least, rows: u32, plates: u32, budget: &Budget) -> u32
    requires side { side < 2 ^ 30 }
    requires some_step { 1 ≤ least.step }
    requires columns { least.columns ≡ 2 * max 1 least.halo + least.step }
    requires small_workspace { least.columns ≤ 2816 }
    requires some_rows { 1 ≤ rows }
    requires few_rows { rows ≤ most_side }
    requires some_plates { 1 ≤ plates }
    requires few_plates { plates ≤ most_plates }
    requires few_samples { least.columns * rows * plates ≤ most_samples }
    ensures workspace { least.columns ≤ result }
    ensures narrow { result ≤ most_side }
    ensures few_samples { result * rows * plates ≤ most_samples }
    ensures budget { (result ≡ least.columns) ⊎ (result * rows * plates ≤ budget.now.samples) }
{
    let most = most_columns(least.columns, rows, plates, budget);
    even_columns(side, least.columns, most)
}

// The number of columns of a window, from `least` to `most`, for which the number of windows is a multiple of four and
// all have about as many columns: four workers, or two, then have equal work. Where the windows would be narrow, it is
// as many as may be.
fn even_columns(side: u32, least: u32, most: u32) -> u32
    requires side { side < 2 ^ 30 }
    requires some { 1 ≤ least }
    requires workspace { least ≤ most }
    requires narrow { most ≤ most_side }
    ensures workspace { least ≤ result }
    ensures few { result ≤ most }
{
    let beside = least - 1;
    let windows = side.div_ceil(most - beside).max(1);
    let core = side.div_ceil(windows.div_ceil(4) * 4);
    if core < NARROW {
        most
    } else {
        (core + beside).clamp(least, most)
    }
}
