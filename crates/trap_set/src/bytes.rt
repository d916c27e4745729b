// The lines of the open file, one after another.

ghost use Rattle.std.specs.Prelude.{◌<◌, IsTrue, length};
ghost use Rattle.trap_set.specs.Bytes.{GivesByte, IsIn, IsShortLine, ReadsNext, found_line, stored_in};

use arrayvec::ArrayVec;
use outside::tray::{DeviceError, Tray};

/// A line of a set with its LF. Every line of a set is shorter than the buffer.
pub(crate) type SetLine = ArrayVec<u8, 160>;

/// The bytes of a buffer that were read from the file and not given out yet: a range of its indices.
#[derive(Clone, Copy, Drop)]
pub(crate) struct Unread {
    pub(crate) from: usize,
    pub(crate) to: usize,
}

/// The next byte of the file; `None` at its end.
pub(crate) fn next_byte<T: Tray>(
    tray: &mut T,
    buf: &mut [u8],
    unread: &mut Unread,
) -> Result<Option<u8>, DeviceError>
    requires begun { IsTrue (T.state tray.old).begun }
    requires workspace { 0 < length buf.old }
    requires within { IsIn buf.old unread.old }
    ensures byte { GivesByte (T.state tray.old) (T.state tray.new)
        (stored_in buf.old unread.old) (stored_in buf.new unread.new) result }
    ensures within { IsIn buf.new unread.new }
{
    if unread.from < unread.to {
        let byte = buf[unread.from];
        unread.from += 1;
        return Ok(Some(byte));
    }
    let count = tray.read(buf)?;
    if count == 0 {
        return Ok(None);
    }
    *unread = Unread { from: 1, to: count };
    Ok(Some(buf[0]))
}

/// Reads the next line, and returns whether there is one: a line without its LF, or a line that is too long, is none.
pub(crate) fn read_line<T: Tray>(
    tray: &mut T,
    buf: &mut [u8],
    unread: &mut Unread,
    line: &mut SetLine,
) -> Result<bool, DeviceError>
    requires begun { IsTrue (T.state tray.old).begun }
    requires workspace { 0 < length buf.old }
    requires within { IsIn buf.old unread.old }
    ensures line { ReadsNext IsShortLine (T.state tray.old) (T.state tray.new)
        (stored_in buf.old unread.old) (stored_in buf.new unread.new)
        (found_line result line.new.items) }
    ensures within { IsIn buf.new unread.new }
{
    line.clear();
    while !line.is_full() {
        match next_byte(tray, buf, unread)? {
            Some(byte) => {
                line.push(byte);
                if byte == b'\n' {
                    return Ok(true);
                }
            }
            None => return Ok(false),
        }
    }
    Ok(false)
}
