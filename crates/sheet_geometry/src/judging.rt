// The checks of a sheet before its tints are read.

ghost use Rattle.std.specs.Prelude.{◌≡◌, ◌<◌, ◌≤◌, ◌^◌, length};
ghost use Rattle.lists.specs.Words.{first_some, greatest_below};
ghost use Rattle.page_model.specs.Columns.{halo};
ghost use Rattle.page_model.specs.Faults.{too_wide};
ghost use Rattle.page_model.specs.Limits.{most_reach};
ghost use Rattle.page_model.specs.Page.{height, width};
ghost use Rattle.page_model.specs.Reach.{page_reach, zone_reach};
ghost use Rattle.sheet_geometry.specs.CommonErrors.{cut_fault, is_large, parts_fault};
ghost use Rattle.sheet_geometry.specs.Outline.{IsOutlineSheet, IsOutlineParts};

use crate::far::{earlier, first_far};
use crate::sheet_errors::SheetError;
use crate::steps::uncut_of;
use page_model::bounds::{MOST_REACH, MOST_SAMPLES, MOST_SIDE};
use page_model::page::{PageFault, first_difference};
use page_model::parts::PageParts;
use page_model::reach::reach_of;

/// Whether a sheet is above the limits of a page.
pub fn is_large_sheet(sheet: &PageParts) -> bool
    requires sheet { IsOutlineSheet sheet.now }
    requires narrow { width sheet.now < 2 ^ 30 }
    requires low { height sheet.now < 2 ^ 30 }
    ensures { result ≡ is_large sheet.now }
{
    let planes = sheet.planes.as_slice();
    let (width, height) = (planes[0].width, planes[0].height);
    let plates = planes.len() as u64;
    width > MOST_SIDE
        || height > MOST_SIDE
        || u64::from(width) * u64::from(height) * plates > MOST_SAMPLES
}

/// Why a sheet can't be cut: the first zone with a vertex too far from a corner, or else the step; `None` where it can.
pub fn cut_fault_of(sheet: &PageParts) -> Option<SheetError>
    requires sheet { IsOutlineSheet sheet.now }
    requires narrow { width sheet.now < 2 ^ 30 }
    requires low { height sheet.now < 2 ^ 30 }
    ensures { result ≡ cut_fault sheet.now }
{
    earlier(first_far(sheet), uncut_of(sheet))
}

/// The reach of a zone in half-samples, 0 where it is disabled.
fn zone_reach_of(sheet: &PageParts, z: u32) -> u32
    requires parts { IsOutlineParts sheet.now }
    requires zone { z < length sheet.now.zones }
    ensures { result ≡ zone_reach sheet.now z }
{
    let zones = sheet.zones.as_slice();
    let params = &zones[z as usize].params;
    if params.enabled {
        reach_of(params, sheet.resolution)
    } else {
        0
    }
}

/// The fault of a zone that reaches too far.
fn width_fault(sheet: &PageParts, z: u32) -> Option<PageFault>
    requires parts { IsOutlineParts sheet.now }
    requires zone { z < length sheet.now.zones }
    ensures { result ≡ too_wide sheet.now z }
{
    if zone_reach_of(sheet, z) > MOST_REACH {
        Some(PageFault::ReachTooWide(z))
    } else {
        None
    }
}

/// The first zone that reaches too far.
fn first_wide(sheet: &PageParts) -> Option<PageFault>
    requires { IsOutlineParts sheet.now }
    ensures { result ≡ first_some (too_wide sheet.now) (length sheet.now.zones) }
{
    let mut found = None;
    for z in 0..sheet.zones.len() as u32 {
        found = earlier(found, width_fault(sheet, z));
    }
    found
}

/// The fault that the sheet would have as a page, apart from the number of samples.
pub fn parts_fault_of(sheet: &PageParts) -> Option<PageFault>
    requires { IsOutlineParts sheet.now }
    ensures { result ≡ parts_fault sheet.now }
{
    earlier(first_difference(sheet), first_wide(sheet))
}

/// The reach of a sheet in half-samples: the greatest reach of its enabled zones.
#[tactic(auto, unfolding(page_model::specs::Reach::page_reach))]
fn reach_of_sheet(sheet: &PageParts) -> u32
    requires { IsOutlineSheet sheet.now }
    ensures value { result ≡ page_reach sheet.now }
    ensures near { result ≤ most_reach }
{
    let mut reach = 0;
    for z in 0..sheet.zones.len() as u32 {
        reach = zone_reach_of(sheet, z).max(reach);
    }
    reach
}

/// The halo of a sheet, in samples, by which a window goes on beyond its core: half the reach, rounded up.
pub fn halo_of(sheet: &PageParts) -> u32
    requires { IsOutlineSheet sheet.now }
    ensures value { result ≡ halo (page_reach sheet.now) }
    ensures few { result ≤ 128 }
{
    reach_of_sheet(sheet).div_ceil(2)
}
