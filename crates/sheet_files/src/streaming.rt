// A sheet that streams, with the report after its plates.

ghost use Rattle.std.specs.Prelude.{◌≡◌, ◌≤◌, length, map};
ghost use Rattle.page_model.specs.Page.{plates};
ghost use Rattle.sheet_stream.specs.Strips.{CanStream};
ghost use Rattle.sheet_stream.specs.Workspaces.{IsStreamWorkspace};
ghost use Rattle.sheet_stream.specs.Second.{course_of, sheet_header};
ghost use Rattle.sheet_engine.specs.Works.{AreNone};
ghost use Rattle.sheet_files.specs.Reporting.{CountSome};
ghost use Rattle.sheet_files.specs.Streaming.{EndsReport, StreamsBy, StreamsOut, stream_error};
ghost use Rattle.sheet_files.specs.Errors.{error_of};

use crate::error::{TrapsheetError, error_of};
use crate::reporting::report_counts;
use common_errors::common::CommonError;
use outside::rack::Rack;
use outside::tray::{DeviceError, Tray};
use page_model::parts::{OutOfMemory, PageParts};
use pgm_plates::rows::Header;
use sheet_engine::counts::SheetCounts;
use sheet_geometry::plan::Rulers;
use sheet_stream::error::StreamError;
use sheet_stream::parts::{PlateNames, StripPlan};
use sheet_stream::sheet::stream_sheet;
use sheet_stream::workspace::{StreamWorkspace, stream_workspace};
use std::alloc::Global;
use std::convert::AsStr;
use std::thread::Threads;

// The program's error for what stopped a sheet that streams.
fn stream_error(error: StreamError) -> TrapsheetError
    ensures { result ≡ stream_error error }
{
    match error {
        StreamError::Unread(error) => error_of(error),
        StreamError::Unwritten(common_error) => TrapsheetError::Common(common_error),
    }
}

/// The header that each plate of a sheet has.
pub fn header_for(outline: &PageParts) -> Header
    requires { 1 ≤ plates outline.now }
    ensures { result ≡ sheet_header outline.now }
{
    let planes = outline.planes.as_slice();
    Header {
        width: planes[0].width,
        height: planes[0].height,
        maxval: planes[0].maxval,
    }
}

/// The names of the files of a sheet: those of its plates, and that of its report.
#[derive(Drop)]
pub struct SheetNames<'a, S> {
    pub plates: PlateNames<'a, S>,
    pub report: &'a str,
}

/// Reads the plates of a sheet that was checked once more, traps it strip by strip, and writes its files, the report
/// last. All memory is allocated before the first file is begun.
pub fn stream<H: Threads + Sync, T: Tray, R: Rack, S: AsStr>(
    rt: &H,
    alloc: Global,
    trays: &mut [T],
    racks: &mut [R],
    names: &SheetNames<'_, S>,
    workers: u32,
    outline: &PageParts,
    rulers: &Rulers,
) -> Result<(), TrapsheetError>
    requires can { StreamsBy outline.now rulers.now }
    requires workers { 1 ≤ workers }
    requires inputs { length names.now.plates.inputs.now ≡ plates outline.now }
    requires outputs { length names.now.plates.outputs.now ≡ plates outline.now }
    requires trays { plates outline.now ≤ length trays.old }
    requires racks { plates outline.now ≤ length racks.old }
    ensures { let course = course_of (map S.text names.now.plates.inputs.now) (map S.text
        names.now.plates.outputs.now) (map T.state trays.old) (map R.state racks.old) in
        StreamsOut course names.now.report.now outline.now (map T.state trays.new) (map R.state
        racks.new)
        result }
{
    let plan = StripPlan {
        across: rulers.across,
        down: rulers.down,
        header: header_for(outline),
        workers: workers as usize,
    };
    match stream_workspace(alloc, outline, &plan) {
        Ok(workspace) => stream_in(rt, alloc, trays, racks, names, outline, &plan, workspace),
        Err(OutOfMemory) => Err(TrapsheetError::Common(CommonError::Memory)),
    }
}

// Does the same with the memory allocated.
fn stream_in<H: Threads + Sync, T: Tray, R: Rack, S: AsStr>(
    rt: &H,
    alloc: Global,
    trays: &mut [T],
    racks: &mut [R],
    names: &SheetNames<'_, S>,
    outline: &PageParts,
    plan: &StripPlan,
    workspace: StreamWorkspace,
) -> Result<(), TrapsheetError>
    requires can { CanStream outline.now plan.now }
    requires header { plan.now.header ≡ sheet_header outline.now }
    requires inputs { length names.now.plates.inputs.now ≡ plates outline.now }
    requires outputs { length names.now.plates.outputs.now ≡ plates outline.now }
    requires trays { plates outline.now ≤ length trays.old }
    requires racks { plates outline.now ≤ length racks.old }
    requires workspace { IsStreamWorkspace outline.now plan.now workspace }
    requires counts { AreNone outline.now workspace.counts }
    ensures { let course = course_of (map S.text names.now.plates.inputs.now) (map S.text
        names.now.plates.outputs.now) (map T.state trays.old) (map R.state racks.old) in
        StreamsOut course names.now.report.now outline.now (map T.state trays.new) (map R.state
        racks.new)
        result }
{
    let mut used = workspace;
    let plates = &names.plates;
    let ended = stream_sheet(rt, alloc, trays, racks, plates, outline, plan, &mut used);
    let counts = counts_in(used);
    match ended {
        Ok(()) => write_counts(racks, names.report, outline, counts),
        Err(error) => Err(stream_error(error)),
    }
}

// The counts of a sheet that was streamed; all else of its memory is freed.
fn counts_in(workspace: StreamWorkspace) -> SheetCounts
    ensures { result ≡ workspace.counts }
{
    let StreamWorkspace {
        strip: _strip,
        ahead: _ahead,
        windows: _windows,
        core: _core,
        counts,
        pieces: _pieces,
    } = workspace;
    counts
}

// Writes the report of the counts.
fn write_counts<R: Rack>(
    racks: &mut [R],
    report: &str,
    outline: &PageParts,
    counts: SheetCounts,
) -> Result<(), TrapsheetError>
    requires racks { 1 ≤ length racks.old }
    requires some { 1 ≤ plates outline.now }
    requires inks { length outline.now.inks ≡ plates outline.now }
    requires counts { CountSome outline.now counts }
    ensures { EndsReport report.now outline.now counts (map R.state racks.old)
        (map R.state racks.new) result }
{
    match report_counts(racks, report, outline, counts) {
        Ok(()) => Ok(()),
        Err(DeviceError) => Err(TrapsheetError::Common(CommonError::Write(None))),
    }
}
