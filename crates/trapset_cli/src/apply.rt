ghost use Rattle.std.specs.Prelude.{◌≤◌, length, map};
ghost use Rattle.trapset_cli.specs.Endings.{CarriesOut};
ghost use Rattle.trapset_cli.specs.Putting.{AreInRange, PutsPlates};
ghost use Rattle.plain_words.specs.Inputs.{AreFew};
ghost use Rattle.trapset_cli.specs.Stored.{apply_in};
ghost use Rattle.trapset_cli.specs.Words.{Apply as apply};
ghost use Rattle.page_model.specs.Limits.{most_plates};

use crate::command::ApplyArgs;
use crate::planes::patched_planes;
use crate::reason::TrapsetError;
use common_errors::common::CommonError;
use outside::rack::Rack;
use outside::tray::Tray;
use page_files::writing::write_plates;
use page_model::parts::PlaneList;
use plain_words::files::copy_outputs;
use std::alloc::Global;

// Runs the command `apply`: reads the plates and then the set, and only then writes the plates. All memory is allocated
// before the first file is created.
pub(crate) fn carry_out_apply<T: Tray, R: Rack>(
    alloc: Global,
    command: &ApplyArgs<'_>,
    tray: &mut T,
    rack: &mut R,
) -> Result<(), TrapsetError>
    requires { AreFew (length command.now.plates.now) }
    ensures { CarriesOut (apply (apply_in command.now)) (T.state tray.old) (T.state tray.new)
        (R.state rack.old) (R.state rack.new) result }
{
    let Ok(outputs) = copy_outputs(alloc, command.plates) else {
        return Err(TrapsetError::Page(CommonError::Memory));
    };
    let planes = patched_planes(alloc, command, tray)?;
    put_plates(rack, outputs.as_slice(), planes)
}

fn put_plates<R: Rack>(
    rack: &mut R,
    outputs: &[&str],
    planes: PlaneList,
) -> Result<(), TrapsetError>
    requires few { length outputs.now ≤ most_plates }
    requires planes { AreInRange planes (length outputs.now) }
    ensures { PutsPlates (map (λ file. file.now) outputs.now) planes (R.state rack.old)
        (R.state rack.new) result }
{
    match write_plates(rack, outputs, planes) {
        Ok(()) => Ok(()),
        Err(error) => Err(TrapsetError::Page(error)),
    }
}
