ghost use Rattle.std.specs.Prelude.{IsTrue};
ghost use Rattle.outside.specs.Writing.{WritesFile, WritesOn, FillsFile};

use crate::rack::Rack;
use crate::tray::DeviceError;

/// Writes a whole file of that name: creates it, writes all bytes and finishes it.
pub fn write_file<R: Rack>(rack: &mut R, name: &str, bytes: &[u8]) -> Result<(), DeviceError>
    ensures { WritesFile name.now bytes.now (R.state rack.old) (R.state rack.new) result }
{
    rack.create(name)?;
    fill(rack, bytes)
}

// Writes all of the open file, and finishes it.
fn fill<R: Rack>(rack: &mut R, bytes: &[u8]) -> Result<(), DeviceError>
    requires { IsTrue (R.state rack.old).is_open }
    ensures { FillsFile bytes.now (R.state rack.old) (R.state rack.new) result }
{
    write_on(rack, bytes)?;
    rack.finish()
}

/// Writes a whole piece at the end of the open file.
pub fn write_on<R: Rack>(rack: &mut R, piece: &[u8]) -> Result<(), DeviceError>
    requires { IsTrue (R.state rack.old).is_open }
    ensures { WritesOn piece.now (R.state rack.old) (R.state rack.new) result }
{
    let mut done = 0usize;
    while done < piece.len() {
        let count = rack.write(&piece[done..])?;
        done += count;
    }
    Ok(())
}
