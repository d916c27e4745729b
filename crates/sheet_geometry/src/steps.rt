// The step by which a sheet is cut.

ghost use Rattle.std.specs.Prelude.{◌≡◌, ◌<◌, ◌≤◌, length, Some, None};
ghost use Rattle.page_model.specs.Limits.{most_resolution};
ghost use Rattle.sheet_geometry.specs.CommonErrors.{has_step, most_step, uncut};
ghost use Rattle.sheet_geometry.specs.Planned.{IsStepOf};
ghost use Rattle.sheet_geometry.specs.Outline.{IsOutlineSheet};

use crate::sheet_errors::SheetError;
use crate::spans::step_of;
use page_model::parts::PageParts;

const MOST_STEP: u32 = 2_048;

/// Whether the step at a resolution is at most 2,048 samples.
fn is_short(resolution: u32) -> bool
    requires some { 1 ≤ resolution }
    requires fine { resolution ≤ most_resolution }
    ensures { result ≡ has_step resolution }
{
    step_of(resolution) <= MOST_STEP
}

/// The error `Uncut` of a sheet with paths for which no step is short enough.
pub fn uncut_of(sheet: &PageParts) -> Option<SheetError>
    requires { IsOutlineSheet sheet.now }
    ensures { result ≡ uncut sheet.now }
{
    if sheet.zones.len() > 1 && !is_short(sheet.resolution) {
        Some(SheetError::Uncut)
    } else {
        None
    }
}

/// The least step of a sheet in samples: 1 where it has no paths, since then no vertex is moved.
#[tactic(auto, using(crate::proofs::StepLemmas::step_short))]
pub fn sheet_step(sheet: &PageParts) -> u32
    requires sheet { IsOutlineSheet sheet.now }
    requires cut { uncut sheet.now ≡ None }
    ensures step { IsStepOf sheet.now result }
    ensures short { result ≤ most_step }
{
    if sheet.zones.len() > 1 {
        step_of(sheet.resolution)
    } else {
        1
    }
}
