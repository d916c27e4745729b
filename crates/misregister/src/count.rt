ghost use Rattle.std.specs.Prelude.{◌≡◌, ◌+◌, ◌<◌, ◌≤◌, ◌*◌, ◌==◌, ℕ, count_by, length, slice_index};
ghost use Rattle.page_model.specs.Shapes.{wide, tall};
ghost use Rattle.misregister.specs.Risk.{risk};
ghost use Rattle.misregister.specs.Limits.{most_radius};

use crate::plate::shade_plate;
use crate::sheet::Sheet;
use crate::workspace::RiskBuf;
use page_model::steps::Steps;
use std::sync::ledger::Ledger;

/// Samples that a plate may shift by to each side.
pub const MOST_RADIUS: u32 = 16;

/// Sets all samples to: no plate has ink.
fn whiten(shades: &mut [u8])
    ensures { (k : ℕ) → k < length shades.old → slice_index shades.new k ≡ 2 }
{
    for shade in shades.iter_mut() {
        *shade = 2;
    }
}

/// The number of samples that some plate has ink on, and that all plates can leave bare.
fn at_risk(shades: &[u8]) -> u64
    ensures { result ≡ count_by (λ shade. shade == 1) shades.now }
{
    shades.iter().filter(|shade| **shade == 1).count() as u64
}

/// The number of samples of the sheet that are at risk if each plate shifts by at most `radius` samples to each side.
/// It reads each sample of a plate once, whatever the radius is, and allocates nothing: the buffers keep their memory.
pub fn risk_count<L: Ledger>(
    sheet: &Sheet,
    width: u32,
    height: u32,
    plates: u32,
    radius: u32,
    buf: &mut RiskBuf,
    steps: &mut Steps<L>,
) -> u64
    requires width { width ≡ wide sheet.now }
    requires height { height ≡ tall sheet.now }
    requires plates { plates ≡ length sheet.now }
    requires radius { radius ≤ most_radius }
    requires buffer_width { buf.old.wide ≡ width }
    requires buffer_height { buf.old.tall ≡ height }
    ensures risk { result ≡ risk sheet.now radius }
    ensures steps { steps.new ≤ steps.old + plates * (width * height) }
    ensures buffer { buf.new ≡ buf.old }
{
    let _size = (width, sheet.height());
    let workspace = &mut buf.workspace;
    whiten(workspace.shades.as_mut_slice());
    for c in 0..plates {
        shade_plate(sheet, c, height, radius, workspace, steps);
    }
    at_risk(workspace.shades.as_slice())
}
