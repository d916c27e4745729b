//! The format of a plate's file. All other code that writes a page uses `write_encoded` and specs/Format.antt alone, so
//! another format is another such pair.

ghost use Rattle.std.specs.Prelude.{◌≤◌};
ghost use Rattle.std.specs.List.{All};
ghost use Rattle.outside.specs.Writing.{WritesFile};
ghost use Rattle.page_model.specs.Limits.{most_maxval};
ghost use Rattle.page_files.specs.Format.{encoded};

use outside::rack::Rack;
use outside::tray::DeviceError;
use page_model::parts::Plane;
use pgm_plates::writing::write_plane;

/// Writes a plane of any sides to the file `name`, as a plate. It allocates nothing. Where a call of the rack fails, a
/// prefix of the bytes stands under the name, or, where the file could not be created, everything is as it was.
pub fn write_encoded<R: Rack>(rack: &mut R, name: &str, plane: &Plane) -> Result<(), DeviceError>
    requires maxval { plane.now.maxval ≤ most_maxval }
    requires fits { All (λ t. t ≤ plane.now.maxval) plane.now.tints }
    ensures { let bytes = encoded plane.now in
        WritesFile name.now bytes (R.state rack.old) (R.state rack.new) result }
{
    write_plane(rack, name, plane)
}
