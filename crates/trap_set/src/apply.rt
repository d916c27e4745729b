ghost use Rattle.std.specs.Prelude.{◌≡◌, ◌↔◌, ◌+◌, ◌^◌, ◌<◌, ◌≤◌, ◌∷◌, [], IsTrue, length, All, slice_index};
ghost use Rattle.outside.specs.Tray.{TrayState};
ghost use Rattle.trap_set.specs.Applying.{AppliesSet, AppliesText, EndsSet, Fits, IsFull, IsSized};
ghost use Rattle.trap_set.specs.Bytes.{IsIn, stored_in};
ghost use Rattle.trap_set.specs.Reading.{head_in};
ghost use Rattle.trap_set.specs.SetText.{IsHead};
ghost use Rattle.trap_set.specs.Standing.{Reached, begun_lines};

use crate::bytes::{Unread, next_byte};
use crate::lines::Head;
use crate::planes::put_run;
use crate::steps::{Next, Place, read_next, read_page, read_title};
use outside::tray::{DeviceError, Tray};
use page_model::parts::{Plane, PlaneList};

/// Why a set was not applied, or not to its end.
#[derive(Clone, Copy, Drop)]
pub enum SetError {
    /// The first bad line, counted from 1: with it the text no longer begins a set. A missing line is a bad one, and so
    /// is one that has no end or more than 160 bytes.
    BadLine(u32),
    /// The set is for another number of planes, or for planes of other sides or another maxval.
    Differs,
    /// A call of the tray failed.
    ReadFault,
}

const PIECE: usize = 4096;

const MOST_NUMBERS: usize = 19;

/// Applies the set in the file `name` to the planes, run by run. It allocates nothing.
///
/// The text is read line by line and each line checked at its end. After an error the planes have the runs of the good
/// lines before it. Whether the set is for these planes is checked after its second line. Whatever the answer, the
/// planes keep their number, sides and maxvals, and if no tint was above a maxval before, none is afterwards.
pub fn apply_set<T: Tray>(tray: &mut T, name: &str, planes: &mut PlaneList) -> Result<(), SetError>
    requires some { 1 ≤ length planes.old }
    requires full { All IsFull planes.old }
    ensures { AppliesSet name.now (T.state tray.old) (T.state tray.new) planes.old planes.new
        result }
{
    match tray.begin(name) {
        Ok(()) => {
            let mut buf = [0u8; PIECE];
            let mut numbers = [0u32; MOST_NUMBERS];
            apply_text(tray, planes, &mut buf, &mut numbers)
        }
        Err(DeviceError) => Err(SetError::ReadFault),
    }
}

// Applies the set in the open file.
fn apply_text<T: Tray>(
    tray: &mut T,
    planes: &mut PlaneList,
    buf: &mut [u8],
    numbers: &mut [u32],
) -> Result<(), SetError>
    requires begun { IsTrue (T.state tray.old).begun }
    requires full { All IsFull planes.old }
    requires workspace { 0 < length buf.old }
    requires most { length numbers.old ≡ 19 }
    ensures { AppliesText (T.state tray.old) (T.state tray.new) planes.old planes.new result }
{
    let mut unread = Unread { from: 0, to: 0 };
    match read_title(tray, buf, &mut unread) {
        Ok(true) => {}
        Ok(false) => return Err(SetError::BadLine(1)),
        Err(DeviceError) => return Err(SetError::ReadFault),
    }
    let head = match read_page(tray, buf, &mut unread) {
        Ok(Some(head)) => head,
        Ok(None) => return Err(SetError::BadLine(2)),
        Err(DeviceError) => return Err(SetError::ReadFault),
    };
    if !fits(head, planes) {
        return Err(SetError::Differs);
    }
    let count = head.plates as usize + 3;
    apply_runs(tray, buf, &mut unread, planes, head, &mut numbers[..count])
}

// Whether the planes are those of a page line.
fn fits(head: Head, planes: &PlaneList) -> bool
    ensures { IsTrue result ↔ Fits (head_in head) planes.now }
{
    planes.len() == head.plates as usize && are_sized(head, planes.as_slice())
}

fn are_sized(head: Head, planes: &[Plane]) -> bool
    ensures { IsTrue result ↔ All (IsSized (head_in head)) planes.now }
{
    planes.iter().all(|plane| is_sized(head, plane))
}

fn is_sized(head: Head, plane: &Plane) -> bool
    ensures { IsTrue result ↔ IsSized (head_in head) plane.now }
{
    plane.width == head.width && plane.height == head.height && plane.maxval == head.maxval
}

// Applies the runs after the page line.
fn apply_runs<T: Tray>(
    tray: &mut T,
    buf: &mut [u8],
    unread: &mut Unread,
    planes: &mut PlaneList,
    head: Head,
    numbers: &mut [u32],
) -> Result<(), SetError>
    requires begun { IsTrue (T.state tray.old).begun }
    requires workspace { 0 < length buf.old }
    requires within { IsIn buf.old unread.old }
    requires head { IsHead (head_in head) }
    requires fits { Fits (head_in head) planes.old }
    requires full { All IsFull planes.old }
    requires many { length numbers.old ≡ head.plates + 3 }
    ensures { (start : TrayState) → Reached (begun_lines (head_in head) []) start
        (T.state tray.old) (stored_in buf.old unread.old) → AppliesText start (T.state tray.new)
        planes.old planes.new result }
{
    let mut place = Place { row: 0, column: 0 };
    let mut number = 3u32;
    loop {
        match read_next(tray, buf, unread, head, place, numbers) {
            Ok(Next::Run) => {
                put_run(planes, head, numbers);
                place = end_of(numbers);
                number += 1;
            }
            Ok(Next::End) => return end_set(tray, buf, unread, number + 1),
            Ok(Next::Bad) => return Err(SetError::BadLine(number)),
            Err(DeviceError) => return Err(SetError::ReadFault),
        }
    }
}

// The end of the run with these numbers.
fn end_of(numbers: &[u32]) -> Place
    requires many { 2 < length numbers.now }
    requires small { slice_index numbers.now 1 + slice_index numbers.now 2 < 2 ^ 32 }
    ensures { result ≡ record {
      row = slice_index numbers.now 0;
      column = slice_index numbers.now 1 + slice_index numbers.now 2;
    } }
{
    Place {
        row: numbers[0],
        column: numbers[1] + numbers[2],
    }
}

// Checks that no bytes stand after the last line; they would be a bad line of that number.
fn end_set<T: Tray>(
    tray: &mut T,
    buf: &mut [u8],
    unread: &mut Unread,
    number: u32,
) -> Result<(), SetError>
    requires begun { IsTrue (T.state tray.old).begun }
    requires workspace { 0 < length buf.old }
    requires within { IsIn buf.old unread.old }
    ensures { EndsSet number (T.state tray.old) (T.state tray.new) (stored_in buf.old unread.old)
        result }
{
    match next_byte(tray, buf, unread) {
        Ok(None) => Ok(()),
        Ok(Some(_)) => Err(SetError::BadLine(number)),
        Err(DeviceError) => Err(SetError::ReadFault),
    }
}
