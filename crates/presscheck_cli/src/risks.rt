ghost use Rattle.std.specs.Prelude.{◌≡◌, ◌<◌, ◌≤◌, IfOk};
ghost use Rattle.page_model.specs.Conditions.{IsPage};
ghost use Rattle.page_model.specs.Shapes.{AreOneShape};
ghost use Rattle.presscheck_cli.specs.Text.{text_of};
ghost use Rattle.misregister.specs.Risk.{risk};
ghost use Rattle.misregister.specs.Limits.{most_radius};

use crate::text::check_text;
use misregister::sheet::Sheet;
use misregister::{RiskBuf, risk_count};
use page_model::page::Page;
use page_model::parts::{Name, OutOfMemory, PlaneList};
use page_model::shape_laws::page_planes_law;
use page_model::steps::Steps;
use std::alloc::Global;
use std::marker::Brand;
use std::sync::ledger::{Blank, Ledger};
use strip_engine::trap_alone;

/// Counts the samples at risk before a page is trapped and after, and returns the text of the result.
pub(crate) fn page_text(alloc: Global, page: &Page, radius: u32) -> Result<Name, OutOfMemory>
    requires { radius ≤ most_radius }
    ensures valid { IsPage page.now }
    ensures text { IfOk result (λ text. text ≡ text_of radius page.now) }
{
    page_planes_law(page);
    let before = risk_of(alloc, page.planes(), radius)?;
    let trapped = trap_alone(alloc, page)?;
    let after = risk_of(alloc, &trapped.planes, radius)?;
    check_text(alloc, radius, before, after)
}

// The number of samples of the planes that are at risk.
fn risk_of(alloc: Global, planes: &PlaneList, radius: u32) -> Result<u64, OutOfMemory>
    requires shape { AreOneShape planes.now }
    requires radius { radius ≤ most_radius }
    ensures { IfOk result (λ count. count ≡ risk planes.now radius) }
{
    risk_by::<Brand>(alloc, planes, radius, Blank::new(1))
}

fn risk_by<L: Ledger>(
    alloc: Global,
    planes: &PlaneList,
    radius: u32,
    blank: Blank,
) -> Result<u64, OutOfMemory>
    requires shape { AreOneShape planes.now }
    requires radius { radius ≤ most_radius }
    requires name { blank.name ≡ L.name }
    requires parts { blank.parts ≡ L.parts }
    requires some { 0 < L.parts }
    ensures { IfOk result (λ count. count ≡ risk planes.now radius) }
{
    let first = &planes.as_slice()[0];
    let (width, height) = (first.width, first.height);
    let plates = planes.len() as u32;
    let mut workspace = RiskBuf::new(alloc, width, height)?;
    let mut steps = Steps::<L>::new(blank);
    let sheet = Sheet::new(planes);
    Ok(risk_count(
        &sheet,
        width,
        height,
        plates,
        radius,
        &mut workspace,
        &mut steps,
    ))
}
