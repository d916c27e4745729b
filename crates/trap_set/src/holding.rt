// A text that is collected in a buffer and written by large writes.

ghost use Rattle.std.specs.Prelude.{◌≡◌, ◌∷◌, ◌++◌, [], IsTrue, OnOk};
ghost use Rattle.std.specs.Fmt.{decimal};
ghost use Rattle.trap_set.specs.Holding.{Puts};
ghost use Rattle.trap_set.specs.SetText.{number};

use arrayvec::ArrayVec;
use itoa::Buffer;
use outside::rack::Rack;
use outside::tray::DeviceError;
use outside::writing::write_on;

/// The bytes that are not written yet, until there are enough of them for a write.
pub(crate) type Stored = ArrayVec<u8, 4096>;

/// Writes the bytes of the buffer, and empties it.
pub(crate) fn flush<R: Rack>(rack: &mut R, stored: &mut Stored) -> Result<(), DeviceError>
    requires { IsTrue (R.state rack.old).is_open }
    ensures puts { Puts []
        stored.old.items stored.new.items (R.state rack.old) (R.state rack.new) result }
    ensures none { OnOk result (stored.new.items ≡ []) }
{
    write_on(rack, stored.as_slice())?;
    stored.clear();
    Ok(())
}

/// Appends a piece to the buffer, which is written first if the piece does not fit.
pub(crate) fn put<R: Rack>(
    rack: &mut R,
    stored: &mut Stored,
    piece: &[u8],
) -> Result<(), DeviceError>
    requires { IsTrue (R.state rack.old).is_open }
    ensures { Puts piece.now
        stored.old.items stored.new.items (R.state rack.old) (R.state rack.new) result }
{
    match stored.try_extend_from_slice(piece) {
        Ok(()) => Ok(()),
        Err(_) => {
            flush(rack, stored)?;
            put_past(rack, stored, piece)
        }
    }
}

/// Puts a piece into an empty buffer, or writes it if it is too large.
fn put_past<R: Rack>(rack: &mut R, stored: &mut Stored, piece: &[u8]) -> Result<(), DeviceError>
    requires is_open { IsTrue (R.state rack.old).is_open }
    requires none { stored.old.items ≡ [] }
    ensures { Puts piece.now
        stored.old.items stored.new.items (R.state rack.old) (R.state rack.new) result }
{
    match stored.try_extend_from_slice(piece) {
        Ok(()) => Ok(()),
        Err(_) => write_on(rack, piece),
    }
}

/// Appends a space and a number.
pub(crate) fn put_number<R: Rack>(
    rack: &mut R,
    stored: &mut Stored,
    n: u32,
) -> Result<(), DeviceError>
    requires { IsTrue (R.state rack.old).is_open }
    ensures { Puts (number n)
        stored.old.items stored.new.items (R.state rack.old) (R.state rack.new) result }
{
    put(rack, stored, b" ")?;
    put(rack, stored, Buffer::new().format(n).as_bytes())
}
