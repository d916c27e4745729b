// A sheet whose plates are read once more, and written strip by strip.

ghost use Rattle.std.specs.Prelude.{◌≡◌, ◌<◌, ◌≤◌, ℕ, IsTrue, length, map};
ghost use Rattle.page_model.specs.Page.{plates};
ghost use Rattle.sheet_stream.specs.Courses.{IsStarted};
ghost use Rattle.sheet_stream.specs.Strips.{CanStream};
ghost use Rattle.sheet_stream.specs.Workspaces.{IsStreamWorkspace};
ghost use Rattle.plate_rows.specs.Racks.{rack_at};
ghost use Rattle.plate_rows.specs.Trays.{open_at, tray_at};
ghost use Rattle.sheet_stream.specs.Second.{CanEnd, EndsBoth, EndsCourse, IsBegun, StreamsSheet, WritesBegun, course_of, sheet_header};
ghost use Rattle.sheet_stream.specs.RowReading.{HaveHeader};
ghost use Rattle.sheet_engine.specs.Works.{AreNone};
ghost use Rattle.page_model.specs.Limits.{most_plates};

use crate::error::StreamError;
use crate::parts::{OpenSheet, PlateNames, StripPlan};
use crate::strips::stream_strips;
use crate::workspace::StreamWorkspace;
use outside::rack::Rack;
use outside::tray::Tray;
use page_model::bounds::MOST_PLATES;
use page_model::parts::PageParts;
use pgm_plates::rows::OpenPlate;
use plate_rows::images::{begin_images, end_images};
use plate_rows::rereading::{begin_plates, end_plates};
use std::alloc::Global;
use std::convert::AsStr;
use std::thread::Threads;

/// Reads the plates of a sheet that was checked once more, plate k by tray k, and traps it strip by strip; the new
/// plates are written to the files of their names, plate k by rack k. It allocates nothing.
///
/// It stops at the first plate that has another header or a fault now, or can't be read, and where a call of a rack
/// fails. No file is created before each plate has the sheet's header again. Where it stops, each file that was created
/// has a prefix of what was to be written.
pub fn stream_sheet<H: Threads + Sync, T: Tray, R: Rack, S: AsStr>(
    rt: &H,
    alloc: Global,
    trays: &mut [T],
    racks: &mut [R],
    names: &PlateNames<'_, S>,
    outline: &PageParts,
    plan: &StripPlan,
    workspace: &mut StreamWorkspace,
) -> Result<(), StreamError>
    requires can { CanStream outline.now plan.now }
    requires header { plan.now.header ≡ sheet_header outline.now }
    requires inputs { length names.now.inputs.now ≡ plates outline.now }
    requires outputs { length names.now.outputs.now ≡ plates outline.now }
    requires trays { plates outline.now ≤ length trays.old }
    requires racks { plates outline.now ≤ length racks.old }
    requires workspace { IsStreamWorkspace outline.now plan.now workspace.old }
    requires counts { AreNone outline.now workspace.old.counts }
    ensures { let course = course_of (map S.text names.now.inputs.now) (map S.text
        names.now.outputs.now)
        (map T.state trays.old) (map R.state racks.old) in
        StreamsSheet course outline.now plan.now.header workspace.new.counts (map T.state trays.new)
        (map R.state racks.new) result }
{
    let none = OpenPlate {
        header: plan.header,
        size: 0,
    };
    let mut plates = [none; MOST_PLATES];
    let headers = [plan.header; MOST_PLATES];
    match begin_plates(trays, names.inputs, &headers, &mut plates) {
        Ok(()) => {
            let begun = &plates[..names.inputs.len()];
            let sheet = OpenSheet {
                alloc,
                outline,
                plan,
                plates: begun,
            };
            write_sheet(rt, trays, racks, names.outputs, &sheet, workspace)
        }
        Err(error) => Err(StreamError::Unread(error)),
    }
}

// Does the same with the plates begun.
fn write_sheet<H: Threads + Sync, T: Tray, R: Rack, S: AsStr>(
    rt: &H,
    trays: &mut [T],
    racks: &mut [R],
    outputs: &[S],
    sheet: &OpenSheet<'_>,
    workspace: &mut StreamWorkspace,
) -> Result<(), StreamError>
    requires can { CanStream sheet.now.outline.now sheet.now.plan.now }
    requires headers { HaveHeader sheet.now.outline.now sheet.now.plates.now }
    requires outputs { length outputs.now ≡ length sheet.now.plates.now }
    requires trays { length sheet.now.plates.now ≤ length trays.old }
    requires racks { length sheet.now.plates.now ≤ length racks.old }
    requires workspace { IsStreamWorkspace sheet.now.outline.now sheet.now.plan.now workspace.old }
    requires counts { AreNone sheet.now.outline.now workspace.old.counts }
    requires read { IsBegun sheet.now.plates.now (map T.state trays.old) }
    ensures { WritesBegun (map S.text outputs.now) sheet.now.outline.now sheet.now.plan.now
        sheet.now.plates.now workspace.new.counts (map T.state trays.old) (map T.state trays.new)
        (map R.state racks.old) (map R.state racks.new) result }
{
    match begin_images(racks, outputs, sheet.plan.header) {
        Ok(()) => write_begun(rt, trays, racks, sheet, workspace),
        Err(common_error) => Err(StreamError::Unwritten(common_error)),
    }
}

// Does the same with the plates and the files begun.
fn write_begun<H: Threads + Sync, T: Tray, R: Rack>(
    rt: &H,
    trays: &mut [T],
    racks: &mut [R],
    sheet: &OpenSheet<'_>,
    workspace: &mut StreamWorkspace,
) -> Result<(), StreamError>
    requires can { CanStream sheet.now.outline.now sheet.now.plan.now }
    requires headers { HaveHeader sheet.now.outline.now sheet.now.plates.now }
    requires trays { length sheet.now.plates.now ≤ length trays.old }
    requires racks { length sheet.now.plates.now ≤ length racks.old }
    requires workspace { IsStreamWorkspace sheet.now.outline.now sheet.now.plan.now workspace.old }
    requires counts { AreNone sheet.now.outline.now workspace.old.counts }
    requires started { IsStarted sheet.now.outline.now sheet.now.plan.now sheet.now.plates.now
        (map T.state trays.old) (map R.state racks.old) }
    ensures { EndsCourse sheet.now.outline.now sheet.now.plan.now sheet.now.plates.now
        workspace.new.counts (map T.state trays.old) (map T.state trays.new) (map R.state racks.old)
        (map R.state racks.new) result }
{
    stream_strips(rt, trays, racks, sheet, workspace)?;
    end_sheet(trays, racks, sheet.plates)
}

// Checks that nothing stands after the plates, and finishes the files.
fn end_sheet<T: Tray, R: Rack>(
    trays: &mut [T],
    racks: &mut [R],
    plates: &[OpenPlate],
) -> Result<(), StreamError>
    requires few { length plates.now ≤ most_plates }
    requires trays { length plates.now ≤ length trays.old }
    requires racks { length plates.now ≤ length racks.old }
    requires read { (k : ℕ) → k < length plates.now → CanEnd (open_at plates.now k)
        (tray_at (map T.state trays.old) k) }
    requires open { (k : ℕ) → k < length plates.now
        → IsTrue (rack_at (map R.state racks.old) k).is_open }
    ensures { EndsBoth plates.now (map T.state trays.old) (map T.state trays.new)
        (map R.state racks.old) (map R.state racks.new) result }
{
    match end_plates(trays, plates) {
        Ok(()) => match end_images(racks, plates.len()) {
            Ok(()) => Ok(()),
            Err(common_error) => Err(StreamError::Unwritten(common_error)),
        },
        Err(error) => Err(StreamError::Unread(error)),
    }
}
