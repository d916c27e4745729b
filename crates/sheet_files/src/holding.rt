// A sheet that is not cut into strips, read once more with all its rows.

ghost use Rattle.std.specs.Prelude.{◌≡◌, ◌<◌, ◌≤◌, ◌^◌, length, map};
ghost use Rattle.sheet_geometry.specs.Outline.{IsOutlineSheet};
ghost use Rattle.page_model.specs.Page.{height, plates, width};
ghost use Rattle.sheet_stream.specs.Whole.{all_rows};
ghost use Rattle.sheet_stream.specs.StoredStrips.{IsStripOf};
ghost use Rattle.sheet_files.specs.Holding.{HoldsAll};

use crate::error::{TrapsheetError, error_of};
use crate::streaming::header_for;
use common_errors::common::CommonError;
use lists::memory::vec_of;
use outside::tray::Tray;
use page_model::parts::PageParts;
use sheet_stream::whole::{hold_sheet, sheet_workspace};
use std::alloc::Global;
use std::convert::AsStr;

// The number of bytes of a plate that are read at a time.
const PIECE: usize = 65_536;

/// Reads the plates of a sheet that was checked once more, and returns the sheet with all its rows. All memory is
/// allocated before the first file is begun.
pub fn hold<T: Tray, S: AsStr>(
    alloc: Global,
    trays: &mut [T],
    inputs: &[S],
    outline: &PageParts,
) -> Result<PageParts, TrapsheetError>
    requires outline { IsOutlineSheet outline.now }
    requires narrow { width outline.now < 2 ^ 30 }
    requires low { height outline.now < 2 ^ 30 }
    requires inputs { length inputs.now ≡ plates outline.now }
    requires trays { plates outline.now ≤ length trays.old }
    ensures { HoldsAll (map S.text inputs.now) outline.now (map T.state trays.old)
        (map T.state trays.new) result }
{
    match (sheet_workspace(alloc, outline), vec_of(alloc, 0u8, PIECE)) {
        (Ok(workspace), Ok(bytes)) => hold_in(alloc, trays, inputs, outline, workspace, bytes),
        _ => Err(TrapsheetError::Common(CommonError::Memory)),
    }
}

// Does the same with the memory allocated.
fn hold_in<T: Tray, S: AsStr>(
    alloc: Global,
    trays: &mut [T],
    inputs: &[S],
    outline: &PageParts,
    workspace: PageParts,
    bytes: Vec<u8>,
) -> Result<PageParts, TrapsheetError>
    requires outline { IsOutlineSheet outline.now }
    requires inputs { length inputs.now ≡ plates outline.now }
    requires trays { plates outline.now ≤ length trays.old }
    requires workspace { IsStripOf outline.now (all_rows outline.now) workspace }
    requires bytes { 2 ≤ length bytes.items }
    ensures { HoldsAll (map S.text inputs.now) outline.now (map T.state trays.old)
        (map T.state trays.new) result }
{
    let header = header_for(outline);
    let mut sheet = workspace;
    let mut buffer = bytes;
    match hold_sheet(
        alloc,
        trays,
        inputs,
        outline,
        header,
        &mut sheet,
        &mut buffer,
    ) {
        Ok(()) => Ok(sheet),
        Err(error) => Err(error_of(error)),
    }
}
