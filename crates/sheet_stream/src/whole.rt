// A sheet that is not cut into strips, read once more with all its rows.

ghost use Rattle.std.specs.Prelude.{◌≡◌, ◌<◌, ◌≤◌, ◌^◌, IfOk, length, map};
ghost use Rattle.sheet_geometry.specs.Outline.{IsOutlineSheet};
ghost use Rattle.page_model.specs.Page.{height, plates, width};
ghost use Rattle.sheet_stream.specs.Second.{IsBegun, sheet_header};
ghost use Rattle.sheet_stream.specs.Whole.{EndsStored, HoldsSheet, all_rows};
ghost use Rattle.sheet_stream.specs.RowReading.{HaveHeader};
ghost use Rattle.sheet_stream.specs.StoredStrips.{IsStripOf};

use crate::stored_rows::read_strip;
use crate::stored_strip::first_strip;
use outside::tray::Tray;
use page_model::bounds::MOST_PLATES;
use page_model::parts::{OutOfMemory, PageParts};
use pgm_plates::rows::{Header, OpenPlate};
use plate_rows::error::RereadError;
use plate_rows::rereading::{begin_plates, end_plates};
use sheet_geometry::spans::Span;
use std::alloc::Global;
use std::convert::AsStr;

/// Allocates a sheet with all its rows, as one strip. It fails only where memory runs out.
pub fn sheet_workspace(alloc: Global, outline: &PageParts) -> Result<PageParts, OutOfMemory>
    requires outline { IsOutlineSheet outline.now }
    requires narrow { width outline.now < 2 ^ 30 }
    requires low { height outline.now < 2 ^ 30 }
    ensures { IfOk result (IsStripOf outline.now (all_rows outline.now)) }
{
    let height = outline.planes.as_slice()[0].height;
    let row = Span {
        from: 0,
        wide: height,
        skip: 0,
        core: height,
    };
    first_strip(alloc, outline, &row)
}

/// Reads the plates of a sheet that was checked once more, plate k by tray k, with all their rows into the memory that
/// was allocated for them, which is then the sheet. `bytes` is the buffer that samples are read through, piece by
/// piece. It allocates nothing.
///
/// It stops at the first plate that has another header or a fault now, or can't be read; the tints must not be used
/// then.
pub fn hold_sheet<T: Tray, S: AsStr>(
    alloc: Global,
    trays: &mut [T],
    inputs: &[S],
    outline: &PageParts,
    header: Header,
    sheet: &mut PageParts,
    bytes: &mut [u8],
) -> Result<(), RereadError>
    requires outline { IsOutlineSheet outline.now }
    requires header { header ≡ sheet_header outline.now }
    requires inputs { length inputs.now ≡ plates outline.now }
    requires trays { plates outline.now ≤ length trays.old }
    requires workspace { IsStripOf outline.now (all_rows outline.now) sheet.old }
    requires bytes { 2 ≤ length bytes.old }
    ensures { HoldsSheet (map S.text inputs.now) outline.now sheet.new (map T.state trays.old)
        (map T.state trays.new) result }
{
    let none = OpenPlate { header, size: 0 };
    let mut plates = [none; MOST_PLATES];
    let headers = [header; MOST_PLATES];
    begin_plates(trays, inputs, &headers, &mut plates)?;
    hold_begun(alloc, trays, outline, &plates[..inputs.len()], sheet, bytes)
}

// Does the same with the plates begun.
fn hold_begun<T: Tray>(
    alloc: Global,
    trays: &mut [T],
    outline: &PageParts,
    plates: &[OpenPlate],
    sheet: &mut PageParts,
    bytes: &mut [u8],
) -> Result<(), RereadError>
    requires outline { IsOutlineSheet outline.now }
    requires headers { HaveHeader outline.now plates.now }
    requires trays { length plates.now ≤ length trays.old }
    requires workspace { IsStripOf outline.now (all_rows outline.now) sheet.old }
    requires bytes { 2 ≤ length bytes.old }
    requires read { IsBegun plates.now (map T.state trays.old) }
    ensures { EndsStored outline.now plates.now sheet.new (map T.state trays.old)
        (map T.state trays.new) result }
{
    read_strip(alloc, trays, plates, sheet, bytes)?;
    end_plates(trays, plates)
}
