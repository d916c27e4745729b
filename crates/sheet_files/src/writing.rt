ghost use Rattle.std.specs.Prelude.{◌≡◌, ◌≢◌, ◌<◌, ◌≤◌, ℕ, length, map};
ghost use Rattle.std.specs.List.{All};
ghost use Rattle.outside.specs.Writing.{WritesFile};
ghost use Rattle.page_model.specs.Limits.{most_maxval, most_plates};
ghost use Rattle.page_files.specs.Format.{encoded};
ghost use Rattle.plate_rows.specs.Racks.{rack_at};
ghost use Rattle.sheet_files.specs.Racks.{WritesPlates, WritesSheet, targets};

use crate::error::TrapsheetError;
use common_errors::common::CommonError;
use outside::rack::Rack;
use outside::tray::DeviceError;
use outside::writing::write_file;
use page_files::format::write_encoded;
use page_model::parts::Plane;
use std::convert::AsStr;

/// Writes each plane as a plate to the file of its name, plane k by rack k, and then the text to the report by the
/// first rack. It allocates nothing.
///
/// It stops at the first file at which a call of its rack fails, and returns `Write` with the plate's number from 0, or
/// with `None` for the report. The files before it are whole; of that file a prefix of its bytes stands under its name,
/// or, where it could not be created, nothing; no later file is begun.
pub fn write_sheet<R: Rack, S: AsStr>(
    racks: &mut [R],
    names: &[S],
    planes: &[Plane],
    report: &str,
    text: &[u8],
) -> Result<(), TrapsheetError>
    requires some { 1 ≤ length names.now }
    requires few { length names.now ≤ most_plates }
    requires racks { length names.now ≤ length racks.old }
    requires count { length planes.now ≡ length names.now }
    requires maxvals { All (λ plane. plane.maxval ≤ most_maxval) planes.now }
    requires fits { All (λ plane. All (λ t. t ≤ plane.maxval) plane.tints) planes.now }
    ensures { let target = targets (map S.text names.now) report.now in
        WritesSheet target planes.now text.now (map R.state racks.old) (map R.state racks.new)
        result }
{
    write_plates(racks, names, planes)?;
    match write_report(racks, report, text) {
        Ok(()) => Ok(()),
        Err(DeviceError) => Err(TrapsheetError::Common(CommonError::Write(None))),
    }
}

// Writes the planes, each by the rack of its number.
fn write_plates<R: Rack, S: AsStr>(
    racks: &mut [R],
    names: &[S],
    planes: &[Plane],
) -> Result<(), TrapsheetError>
    requires few { length names.now ≤ most_plates }
    requires racks { length names.now ≤ length racks.old }
    requires count { length planes.now ≡ length names.now }
    requires maxvals { All (λ plane. plane.maxval ≤ most_maxval) planes.now }
    requires fits { All (λ plane. All (λ t. t ≤ plane.maxval) plane.tints) planes.now }
    ensures { WritesPlates (map S.text names.now) planes.now (map R.state racks.old)
        (map R.state racks.new) result }
{
    for place in 0..names.len() {
        match write_at(racks, place as u32, names[place].as_str(), &planes[place]) {
            Ok(()) => {}
            Err(DeviceError) => return Err(TrapsheetError::Common(CommonError::Write(Some(
                place as u32,
            )))),
        }
    }
    Ok(())
}

// Writes a plane by the rack of that number.
fn write_at<R: Rack>(
    racks: &mut [R],
    plate: u32,
    name: &str,
    plane: &Plane,
) -> Result<(), DeviceError>
    requires known { plate < length racks.old }
    requires maxval { plane.now.maxval ≤ most_maxval }
    requires fits { All (λ t. t ≤ plane.now.maxval) plane.now.tints }
    ensures here { WritesFile name.now (encoded plane.now)
        (rack_at (map R.state racks.old) plate) (rack_at (map R.state racks.new) plate) result }
    ensures others { (k : ℕ) → k ≢ plate
        → rack_at (map R.state racks.new) k ≡ rack_at (map R.state racks.old) k }
{
    write_encoded(&mut racks[plate as usize], name, plane)
}

// Writes the report by the first rack.
fn write_report<R: Rack>(racks: &mut [R], report: &str, text: &[u8]) -> Result<(), DeviceError>
    requires { 1 ≤ length racks.old }
    ensures here { WritesFile report.now text.now
        (rack_at (map R.state racks.old) 0) (rack_at (map R.state racks.new) 0) result }
    ensures others { (k : ℕ) → k ≢ 0
        → rack_at (map R.state racks.new) k ≡ rack_at (map R.state racks.old) k }
{
    write_file(&mut racks[0], report, text)
}
