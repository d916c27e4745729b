ghost use Rattle.std.specs.Prelude.{◌≡◌, ◌≤◌, ◌*◌, ◌^◌, length, map};
ghost use Rattle.std.specs.List.{All};
ghost use Rattle.page_model.specs.Conditions.{IsPlane};
ghost use Rattle.page_model.specs.Limits.{most_samples};
ghost use Rattle.page_files.specs.Writing.{WritesPage, WritesPlates};

use crate::format::write_encoded;
use common_errors::common::CommonError;
use outside::rack::Rack;
use outside::tray::DeviceError;
use outside::writing::write_file;
use page_model::parts::PlaneList;
use std::convert::AsStr;

/// Writes each plane as a plate to the file of its name, in order, and then the text to the report. It allocates
/// nothing.
///
/// It stops at the first file at which a call of the rack fails, and returns `Write` with the plate's number from 0, or
/// with `None` for the report. The files before it are whole; of that file a prefix of its bytes stands under its name,
/// or, where it could not be created, nothing; no later file is begun.
pub fn write_page<R: Rack, S: AsStr>(
    rack: &mut R,
    names: &[S],
    planes: PlaneList,
    report: &str,
    text: &[u8],
) -> Result<(), CommonError>
    requires numbered { length names.now ≤ 2 ^ 32 }
    requires count { length planes ≡ length names.now }
    requires planes { All IsPlane planes }
    requires samples { All (λ plane. plane.width * plane.height ≤ most_samples) planes }
    ensures { WritesPage (map S.text names.now) planes report.now text.now (R.state rack.old)
        (R.state rack.new) result }
{
    match write_plates(rack, names, planes) {
        Ok(()) => match write_file(rack, report, text) {
            Ok(()) => Ok(()),
            Err(DeviceError) => Err(CommonError::Write(None)),
        },
        Err(error) => Err(error),
    }
}

/// Writes each plane as a plate to the file of its name, in order, as `write_page` does before the report. It allocates
/// nothing, and its only error is `Write` with the plate's number.
pub fn write_plates<R: Rack, S: AsStr>(
    rack: &mut R,
    names: &[S],
    planes: PlaneList,
) -> Result<(), CommonError>
    requires numbered { length names.now ≤ 2 ^ 32 }
    requires count { length planes ≡ length names.now }
    requires planes { All IsPlane planes }
    requires samples { All (λ plane. plane.width * plane.height ≤ most_samples) planes }
    ensures { WritesPlates (map S.text names.now) planes (R.state rack.old)
        (R.state rack.new) result }
{
    let planes = planes.into_vec();
    let mut place = 0usize;
    for plane in planes {
        match write_encoded(rack, names[place].as_str(), &plane) {
            Ok(()) => place += 1,
            Err(DeviceError) => return Err(CommonError::Write(Some(place as u32))),
        }
    }
    Ok(())
}
