// The core of the strip before is written, and then the next strip is read.

ghost use Rattle.std.specs.Prelude.{◌≡◌, ◌≤◌, length, map};
ghost use Rattle.page_model.specs.Page.{plates};
ghost use Rattle.sheet_stream.specs.Reading.{CanReadRow};
ghost use Rattle.sheet_stream.specs.Waiting.{IsWaiting, PlatesOpen, WritesAndReads};
ghost use Rattle.sheet_stream.specs.Cores.{WritesCore};
ghost use Rattle.sheet_stream.specs.OnSheet.{strip_cut};

use crate::ahead::read_row;
use crate::error::StreamError;
use crate::parts::{Neighbours, OpenSheet, StripPlan};
use crate::strip::{CoreWorkspace, write_row};
use common_errors::common::CommonError;
use lists::list::List;
use outside::rack::Rack;
use outside::tray::Tray;
use page_model::parts::PageParts;
use sheet_geometry::spans::Span;
use sheet_geometry::window_sheet::Sheet;
use std::alloc::Global;

/// Writes the rows of the core of a strip that was trapped and not written yet, plate k by rack k. It allocates
/// nothing.
///
/// Where a call of a rack fails, it stops with `Write` and the plate's number.
pub fn write_waiting<R: Rack>(
    alloc: Global,
    racks: &mut [R],
    plan: &StripPlan,
    row: &Span,
    strip: &mut PageParts,
    core: &mut CoreWorkspace,
) -> Result<(), CommonError>
    requires racks { plates strip.old ≤ length racks.old }
    requires opened { PlatesOpen plan.now strip.old (map R.state racks.old) }
    requires waiting { IsWaiting plan.now row.now strip.old core.old }
    ensures strip { strip.new ≡ strip.old }
    ensures windows { core.new.windows ≡ core.old.windows }
    ensures line { length core.new.line.items ≡ length core.old.line.items }
    ensures bytes { length core.new.bytes.items ≡ length core.old.bytes.items }
    ensures written { WritesCore (plates strip.old) plan.now.header strip.old
        (strip_cut plan.now.across plan.now.down row.now) (map R.state racks.old)
        (map R.state racks.new) result }
{
    let sheet = Sheet::of(std::mem::replace(strip, no_parts(alloc)));
    let result = write_row(racks, plan, row, &sheet, core);
    *strip = sheet.into_parts();
    result
}

/// Writes the core of the strip that was trapped and not written yet, plate k by rack k, and then reads the next strip
/// into its place, plate k by tray k. It allocates nothing.
///
/// It stops where a call of a rack fails, with nothing read, and at the first plate that has a fault now or can't be
/// read.
pub fn write_and_read<T: Tray, R: Rack>(
    trays: &mut [T],
    racks: &mut [R],
    sheet: &OpenSheet<'_>,
    around: &Neighbours,
    strip: &PageParts,
    ahead: &mut PageParts,
    core: &mut CoreWorkspace,
    bytes: &mut Vec<u8>,
) -> Result<(), StreamError>
    requires opened { PlatesOpen sheet.now.plan.now ahead.old (map R.state racks.old) }
    requires waiting { IsWaiting sheet.now.plan.now around.now.last ahead.old core.old }
    requires can { CanReadRow sheet.now.outline.now sheet.now.plan.now sheet.now.plates.now
        around.now.progress around.now.next (map T.state trays.old) strip.now ahead.old }
    requires trays { length sheet.now.plates.now ≤ length trays.old }
    requires count { length ahead.old.planes ≡ length sheet.now.plates.now }
    requires racks { length sheet.now.plates.now ≤ length racks.old }
    requires bytes { 2 ≤ length bytes.old.items }
    ensures windows { core.new.windows ≡ core.old.windows }
    ensures line { length core.new.line.items ≡ length core.old.line.items }
    ensures spelled { length core.new.bytes.items ≡ length core.old.bytes.items }
    ensures bytes { length bytes.new.items ≡ length bytes.old.items }
    ensures does { WritesAndReads sheet.now.outline.now sheet.now.plan.now sheet.now.plates.now
        around.now.progress around.now.last around.now.next strip.now ahead.old ahead.new
        (map T.state trays.old) (map T.state trays.new) (map R.state racks.old)
        (map R.state racks.new) result }
{
    match write_waiting(sheet.alloc, racks, sheet.plan, &around.last, ahead, core) {
        Ok(()) => match read_row(
            trays,
            sheet,
            &around.progress,
            &around.next,
            strip,
            ahead,
            bytes,
        ) {
            Ok(()) => Ok(()),
            Err(error) => Err(StreamError::Unread(error)),
        },
        Err(common_error) => Err(StreamError::Unwritten(common_error)),
    }
}

/// No plates, as a placeholder for a strip. It allocates nothing.
pub fn no_parts(alloc: Global) -> PageParts {
    PageParts {
        resolution: 0,
        planes: List::new(alloc),
        inks: List::new(alloc),
        zones: List::new(alloc),
    }
}
