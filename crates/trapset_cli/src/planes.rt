// The plates of `apply`: read from their files, and the set applied to them.

ghost use Rattle.std.specs.Prelude.{◌≤◌, All, length};
ghost use Rattle.trapset_cli.specs.Putting.{Patches, PatchesPlanes};
ghost use Rattle.plain_words.specs.Inputs.{AreFew};
ghost use Rattle.trapset_cli.specs.Stored.{apply_in};
ghost use Rattle.trap_set.specs.Applying.{IsFull};

use crate::command::ApplyArgs;
use crate::reason::TrapsetError;
use common_errors::common::CommonError;
use outside::tray::Tray;
use page_files::plates::read_plates;
use page_model::parts::PlaneList;
use pgm_plates::laws::plane_turns_back;
use plain_words::files::copy_inputs;
use std::alloc::Global;
use trap_set::{SetError, apply_set};

/// Reads the plates in the order of the words and then the set, and returns the planes with the set applied.
pub(crate) fn patched_planes<T: Tray>(
    alloc: Global,
    command: &ApplyArgs<'_>,
    tray: &mut T,
) -> Result<PlaneList, TrapsetError>
    requires { AreFew (length command.now.plates.now) }
    ensures { PatchesPlanes (apply_in command.now) (T.state tray.old) (T.state tray.new) result }
{
    let Ok(inputs) = copy_inputs(alloc, command.plates) else {
        return Err(TrapsetError::Page(CommonError::Memory));
    };
    match read_plates(alloc, tray, inputs.as_slice()) {
        Ok(planes) => {
            plane_turns_back();
            patch_planes(tray, command.set, planes)
        }
        Err(error) => Err(TrapsetError::Page(error)),
    }
}

// Applies the set of that file to the planes.
fn patch_planes<T: Tray>(
    tray: &mut T,
    set: &str,
    planes: PlaneList,
) -> Result<PlaneList, TrapsetError>
    requires some { 1 ≤ length planes }
    requires full { All IsFull planes }
    ensures { Patches set.now planes (T.state tray.old) (T.state tray.new) result }
{
    let mut planes = planes;
    match apply_set(tray, set, &mut planes) {
        Ok(()) => Ok(planes),
        Err(SetError::BadLine(line)) => Err(TrapsetError::BadLine(line)),
        Err(SetError::Differs) => Err(TrapsetError::Differs),
        Err(SetError::ReadFault) => Err(TrapsetError::SetUnread),
    }
}
