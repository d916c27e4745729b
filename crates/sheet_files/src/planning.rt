ghost use Rattle.std.specs.Prelude.{◌≡◌, ◌<◌, ◌^◌, IfOk, map};
ghost use Rattle.job_reader.specs.InRange.{IsJob};
ghost use Rattle.page_files.specs.Assembly.{parts_of_planes};
ghost use Rattle.page_model.specs.Page.{height, width};
ghost use Rattle.sheet_files.specs.Planning.{CanPlan, CanPlanPlanes, PlansParts, PlansSheet, plane_for};
ghost use Rattle.sheet_geometry.specs.Outline.{IsOutlineParts};

use crate::error::TrapsheetError;
use common_errors::common::CommonError;
use job_reader::job::Job;
use lists::list::List;
use lists::names::NameList;
use page_files::assemble::{parts_of, without_details};
use page_model::parts::{OutOfMemory, PageParts, Plane, PlaneList};
use pgm_plates::rows::Header;
use sheet_geometry::budget::Budget;
use sheet_geometry::plan::{Plan, plan_sheet};
use std::alloc::Global;

/// A sheet before its tints are read: all of it but these, and how it is going to be trapped.
#[derive(Drop)]
pub struct PlannedSheet {
    pub outline: PageParts,
    pub plan: Plan,
}

/// Makes the sheet of a job and plates with these headers, without its tints, and decides how it is trapped within a
/// budget for each window. Each plate has its colorant's name, and gets the ink that the job's details give that name;
/// each zone keeps only the limits of the plates' names.
///
/// If some zone is enabled, the first plate without details is refused. Then come the faults of the sheet, and out of
/// memory. No sample is read: what is refused here is refused for all plates with these headers.
pub fn plan_headers(
    alloc: Global,
    job: Job,
    headers: &[Header],
    names: &NameList,
    budget: &Budget,
) -> Result<PlannedSheet, TrapsheetError>
    requires job { IsJob job }
    requires headers { CanPlan headers.now names.now }
    ensures { PlansSheet budget.now job headers.now names.now result }
{
    match without_details(&job, names) {
        Some(plate) => Err(TrapsheetError::Common(CommonError::NoDetails(plate))),
        None => match outline_planes(alloc, headers) {
            Ok(planes) => plan_planes(alloc, job, planes, names, budget),
            Err(OutOfMemory) => Err(TrapsheetError::Common(CommonError::Memory)),
        },
    }
}

// The sheet of planes without tints, none of which lacks its details.
fn plan_planes(
    alloc: Global,
    job: Job,
    planes: PlaneList,
    names: &NameList,
    budget: &Budget,
) -> Result<PlannedSheet, TrapsheetError>
    requires job { IsJob job }
    requires planes { CanPlanPlanes planes names.now }
    ensures { PlansParts budget.now (parts_of_planes job planes names.now) result }
{
    match parts_of(alloc, job, planes, names) {
        Ok(outline) => plan_parts(outline, budget),
        Err(OutOfMemory) => Err(TrapsheetError::Common(CommonError::Memory)),
    }
}

// These parts with their plan, or the error of the sheet.
fn plan_parts(outline: PageParts, budget: &Budget) -> Result<PlannedSheet, TrapsheetError>
    requires outline { IsOutlineParts outline }
    requires narrow { width outline < 2 ^ 30 }
    requires low { height outline < 2 ^ 30 }
    ensures { PlansParts budget.now outline result }
{
    match plan_sheet(&outline, budget) {
        Ok(plan) => Ok(PlannedSheet { outline, plan }),
        Err(common_error) => Err(TrapsheetError::OfSheet(common_error)),
    }
}

fn outline_planes(alloc: Global, headers: &[Header]) -> Result<PlaneList, OutOfMemory>
    ensures { IfOk result (λ planes. planes ≡ map plane_for headers.now) }
{
    let mut planes = List::new(alloc);
    for header in headers {
        if planes.push(outline_plane(alloc, header)).is_err() {
            return Err(OutOfMemory);
        }
    }
    Ok(planes)
}

// The plane of a header, without its tints.
fn outline_plane(alloc: Global, header: &Header) -> Plane
    ensures { result ≡ plane_for header.now }
{
    Plane {
        width: header.width,
        height: header.height,
        maxval: header.maxval,
        tints: List::new(alloc),
    }
}
