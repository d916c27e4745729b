// The lines of a set, read one after another.

ghost use Rattle.std.specs.Prelude.{◌≡◌, ◌⊎◌, ◌↔◌, ◌+◌, ◌<◌, ◌≤◌, IsTrue, IfOk, IfSome, length};
ghost use Rattle.trap_set.specs.Bytes.{IsIn, ReadsNext, found_line, stored_in};
ghost use Rattle.trap_set.specs.Reading.{head_in, run_in};
ghost use Rattle.trap_set.specs.SetText.{IsHead, IsRun, end_line, run_line, title_line};
ghost use Rattle.trap_set.specs.Standing.{IsAfter, IsPageLine, MayCome, found_next, found_page};

use crate::bytes::{SetLine, Unread, read_line};
use crate::lines::{Head, read_page_line, read_run_line};
use outside::tray::{DeviceError, Tray};

/// Where the next run may begin: the end of the last one.
#[derive(Clone, Copy, Drop)]
pub(crate) struct Place {
    pub(crate) row: u32,
    pub(crate) column: u32,
}

/// What the line after a page line or a run is.
#[derive(Clone, Copy, Drop)]
pub(crate) enum Next {
    Run,
    End,
    Bad,
}

/// Reads the first line, and returns whether a set may begin with it.
pub(crate) fn read_title<T: Tray>(
    tray: &mut T,
    buf: &mut [u8],
    unread: &mut Unread,
) -> Result<bool, DeviceError>
    requires begun { IsTrue (T.state tray.old).begun }
    requires workspace { 0 < length buf.old }
    requires within { IsIn buf.old unread.old }
    ensures line { ReadsNext (λ line. line ≡ title_line) (T.state tray.old) (T.state tray.new)
        (stored_in buf.old unread.old) (stored_in buf.new unread.new)
        (found_line result title_line) }
    ensures within { IsIn buf.new unread.new }
{
    let mut line = SetLine::new();
    let found = read_line(tray, buf, unread, &mut line)?;
    if found {
        Ok(is_title(line.as_slice()))
    } else {
        Ok(false)
    }
}

fn is_title(line: &[u8]) -> bool
    ensures { IsTrue result ↔ (line.now ≡ title_line) }
{
    line == b"trap set\n".as_slice()
}

/// Reads the second line; `None` where it is no page line.
pub(crate) fn read_page<T: Tray>(
    tray: &mut T,
    buf: &mut [u8],
    unread: &mut Unread,
) -> Result<Option<Head>, DeviceError>
    requires begun { IsTrue (T.state tray.old).begun }
    requires workspace { 0 < length buf.old }
    requires within { IsIn buf.old unread.old }
    ensures line { ReadsNext IsPageLine (T.state tray.old) (T.state tray.new)
        (stored_in buf.old unread.old) (stored_in buf.new unread.new) (found_page result) }
    ensures range { IfOk result (λ page. IfSome page (λ head. IsHead (head_in head))) }
    ensures within { IsIn buf.new unread.new }
{
    let mut line = SetLine::new();
    let found = read_line(tray, buf, unread, &mut line)?;
    if found {
        Ok(read_page_line(line.as_slice()))
    } else {
        Ok(None)
    }
}

/// Reads a later line, and writes the numbers of a run to the list.
pub(crate) fn read_next<T: Tray>(
    tray: &mut T,
    buf: &mut [u8],
    unread: &mut Unread,
    head: Head,
    place: Place,
    numbers: &mut [u32],
) -> Result<Next, DeviceError>
    requires begun { IsTrue (T.state tray.old).begun }
    requires workspace { 0 < length buf.old }
    requires within { IsIn buf.old unread.old }
    requires head { IsHead (head_in head) }
    requires many { length numbers.old ≡ head.plates + 3 }
    ensures line { ReadsNext (MayCome (head_in head) place) (T.state tray.old) (T.state tray.new)
        (stored_in buf.old unread.old) (stored_in buf.new unread.new)
        (found_next result numbers.new) }
    ensures run { IfOk result (λ next. next ≡ Next.Run → IsRun (head_in head) (run_in numbers.new)
        × IsAfter place (run_in numbers.new)) }
    ensures within { IsIn buf.new unread.new }
{
    let mut line = SetLine::new();
    let found = read_line(tray, buf, unread, &mut line)?;
    if found {
        Ok(next_in(line.as_slice(), head, place, numbers))
    } else {
        Ok(Next::Bad)
    }
}

// What a whole line is.
fn next_in(line: &[u8], head: Head, place: Place, numbers: &mut [u32]) -> Next
    requires head { IsHead (head_in head) }
    requires many { length numbers.old ≡ head.plates + 3 }
    ensures end { result ≡ Next.End → line.now ≡ end_line }
    ensures run { result ≡ Next.Run → (line.now ≡ run_line (run_in numbers.new))
        × IsRun (head_in head) (run_in numbers.new) × IsAfter place (run_in numbers.new) }
    ensures bad { result ≡ Next.Bad → MayCome (head_in head) place line.now → ⊥ }
{
    if is_end(line) {
        return Next::End;
    }
    if !read_run_line(line, head, numbers) {
        return Next::Bad;
    }
    if is_after(place, numbers) {
        Next::Run
    } else {
        Next::Bad
    }
}

fn is_end(line: &[u8]) -> bool
    ensures { IsTrue result ↔ (line.now ≡ end_line) }
{
    line == b"end\n".as_slice()
}

// Whether the run of these numbers begins at the place or after it.
fn is_after(place: Place, numbers: &[u32]) -> bool
    requires { 2 < length numbers.now }
    ensures { IsTrue result ↔ IsAfter place (run_in numbers.now) }
{
    place.row < numbers[0] || (place.row == numbers[0] && place.column <= numbers[1])
}
