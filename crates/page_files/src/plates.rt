ghost use Rattle.std.specs.Prelude.{◌<◌, ◌≤◌, length, map};
ghost use Rattle.page_files.specs.Steps.{ReadsPlates, plates_sought};
ghost use Rattle.page_model.specs.Limits.{most_plates};

use crate::looks::{Look, look_through};
use common_errors::common::CommonError;
use outside::tray::Tray;
use page_model::parts::{Plane, PlaneList};
use pgm_plates::laws::{file_fault, file_plate};
use pgm_plates::plate::PlateError;
use pgm_plates::reading::read_plane;
use std::alloc::Global;
use std::convert::AsStr;

/// Reads the plates of these files in order, each as its plane, up to the first that is refused: by a read that fails,
/// by a fault of the plate's file, or because memory runs out. No file is begun after it.
pub fn read_plates<T: Tray, S: AsStr>(
    alloc: Global,
    tray: &mut T,
    inputs: &[S],
) -> Result<PlaneList, CommonError>
    requires { length inputs.now ≤ most_plates }
    ensures { ReadsPlates (map S.text inputs.now) (T.state tray.old) (T.state tray.new) result }
{
    look_through(alloc, tray, inputs, &Plates)
}

// The plane of each file.
struct Plates;

impl Look for Plates {
    type Found = Plane;

    type CommonError = CommonError;

    ghost sought = { λ look. plates_sought };

    fn look<T: Tray>(
        &self,
        alloc: Global,
        tray: &mut T,
        number: u32,
        name: &str,
    ) -> Result<Plane, CommonError> {
        match read_plane(alloc, tray, name) {
            Ok(read) => {
                file_plate();
                Ok(read)
            }
            Err(PlateError::Fault(fault)) => {
                file_fault();
                Err(CommonError::Plate(number, fault))
            }
            Err(PlateError::ReadFault) => Err(CommonError::Read(Some(number))),
            Err(PlateError::OutOfMemory) => Err(CommonError::Memory),
        }
    }

    fn no_memory(&self) -> CommonError {
        CommonError::Memory
    }
}
