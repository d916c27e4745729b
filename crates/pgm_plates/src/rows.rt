ghost use Rattle.std.specs.Prelude.{IsTrue, ◌≢◌, ◌≤◌, ◌+◌, ◌^◌, length, Err};
ghost use Rattle.pgm_plates.specs.Limits.{most_header};
ghost use Rattle.pgm_plates.specs.Readers.{OpensPlate, ReadsPiece, ReadsUnkept};
ghost use Rattle.pgm_plates.specs.Reading.{KeepsCount};
ghost use Rattle.pgm_plates.specs.Rows.{BeginsPlate, EndsPlate, ReadsRows, ReadsSome, samples_of};

use crate::bounds::Bounds;
pub use crate::header::Header;
use crate::plate::PlateError;
use crate::raster::{judge_piece, read_piece};
use crate::reading::{end_of_file, read_header};
use crate::samples::sample_size;
use outside::tray::Tray;

/// A plate file that is being read: its header, and the header's length in bytes.
#[derive(Clone, Copy, Debug, Drop, PartialEq, Eq)]
pub struct OpenPlate {
    pub header: Header,
    pub size: u64,
}

/// Begins the file `name` and reads its header, within these bounds.
///
/// With `read_rows` and `end_plate` after it, it reads what `read_plate_within` reads, and takes no memory. An error
/// of any of them is the one of the whole plate.
pub fn begin_plate<T: Tray>(
    tray: &mut T,
    name: &str,
    bounds: Bounds,
) -> Result<OpenPlate, PlateError>
    ensures begun { BeginsPlate bounds name.now (T.state tray.old) (T.state tray.new) result }
    ensures memory { result ≢ Err PlateError.OutOfMemory }
{
    tray.begin(name)?;
    open_plate(tray, bounds)
}

// Reads the header of the file that is begun.
fn open_plate<T: Tray>(tray: &mut T, bounds: Bounds) -> Result<OpenPlate, PlateError>
    requires { IsTrue (T.state tray.old).begun }
    ensures answer { OpensPlate bounds (T.state tray.old) (T.state tray.new) result }
    ensures count { KeepsCount (T.state tray.old) (T.state tray.new) result }
    ensures memory { result ≢ Err PlateError.OutOfMemory }
{
    let (header, size) = read_header(tray, bounds)?;
    Ok(OpenPlate { header, size })
}

/// Reads the next samples of a plate, row by row from the top, and fills `samples`; `done` samples were read before.
/// `bytes` is the buffer that they are read through, piece by piece.
///
/// The errors are the fault `SampleAboveMaxval` at the first sample above the maxval, the fault `Truncated` where the
/// file ends before the last of them, and `ReadFault` where a read fails.
pub fn read_rows<T: Tray>(
    tray: &mut T,
    plate: OpenPlate,
    done: u64,
    samples: &mut [u16],
    bytes: &mut [u8],
) -> Result<(), PlateError>
    requires begun { IsTrue (T.state tray.old).begun }
    requires header { plate.size ≤ most_header }
    requires count { done + length samples.old ≤ 2 ^ 36 }
    requires workspace { 2 ≤ length bytes.old }
    ensures rows { ReadsRows plate done samples.new (T.state tray.old) (T.state tray.new) result }
    ensures begun { IsTrue (T.state tray.new).begun }
    ensures memory { result ≢ Err PlateError.OutOfMemory }
{
    let maxval = plate.header.maxval;
    let start = plate.size + done * sample_size(maxval) as u64;
    fill_samples(tray, samples, bytes, maxval, start)
}

/// Reads the next `count` samples of a plate, of which `done` were read before, and keeps none of them: it only checks
/// that none is above the maxval. `bytes` is the buffer that they are read through, piece by piece.
///
/// The errors are those of `read_rows`.
pub fn judge_rows<T: Tray>(
    tray: &mut T,
    plate: OpenPlate,
    done: u64,
    count: u64,
    bytes: &mut [u8],
) -> Result<(), PlateError>
    requires begun { IsTrue (T.state tray.old).begun }
    requires header { plate.size ≤ most_header }
    requires count { done + count ≤ 2 ^ 36 }
    requires workspace { 2 ≤ length bytes.old }
    ensures rows { ReadsSome plate done count (T.state tray.old) (T.state tray.new) result }
    ensures begun { IsTrue (T.state tray.new).begun }
    ensures memory { result ≢ Err PlateError.OutOfMemory }
{
    let maxval = plate.header.maxval;
    let start = plate.size + done * sample_size(maxval) as u64;
    judge_samples(tray, count, bytes, maxval, start)
}

/// Checks that nothing stands after the last sample of a plate.
pub fn end_plate<T: Tray>(tray: &mut T, plate: OpenPlate) -> Result<(), PlateError>
    requires begun { IsTrue (T.state tray.old).begun }
    requires header { plate.size ≤ most_header }
    requires count { samples_of plate.header ≤ 2 ^ 36 }
    ensures ended { EndsPlate plate (T.state tray.old) (T.state tray.new) result }
    ensures memory { result ≢ Err PlateError.OutOfMemory }
{
    let Header {
        width,
        height,
        maxval,
    } = plate.header;
    let count = width as u64 * height as u64;
    end_of_file(tray, plate.size + count * sample_size(maxval) as u64)
}

// Reads samples until there are as many as there is room for.
fn fill_samples<T: Tray>(
    tray: &mut T,
    samples: &mut [u16],
    bytes: &mut [u8],
    maxval: u32,
    start: u64,
) -> Result<(), PlateError>
    requires begun { IsTrue (T.state tray.old).begun }
    requires start { start ≤ 2 ^ 38 }
    requires count { length samples.old ≤ 2 ^ 36 }
    requires workspace { 2 ≤ length bytes.old }
    ensures answer { let count = length samples.new in
        ReadsPiece maxval count start (T.state tray.old) (T.state tray.new) result samples.new }
    ensures begun { IsTrue (T.state tray.new).begun }
    ensures count { KeepsCount (T.state tray.old) (T.state tray.new) result }
    ensures memory { result ≢ Err PlateError.OutOfMemory }
{
    let size = sample_size(maxval);
    let most = bytes.len() / size;
    let mut done = 0usize;
    while done < samples.len() {
        let want = most.min(samples.len() - done);
        read_piece(
            tray,
            &mut samples[done..done + want],
            &mut bytes[..want * size],
            maxval,
            start + (done * size) as u64,
        )?;
        done += want;
    }
    Ok(())
}

// Judges the next `count` samples.
fn judge_samples<T: Tray>(
    tray: &mut T,
    count: u64,
    bytes: &mut [u8],
    maxval: u32,
    start: u64,
) -> Result<(), PlateError>
    requires begun { IsTrue (T.state tray.old).begun }
    requires start { start ≤ 2 ^ 38 }
    requires count { count ≤ 2 ^ 36 }
    requires workspace { 2 ≤ length bytes.old }
    ensures answer { ReadsUnkept maxval count start (T.state tray.old) (T.state tray.new) result }
    ensures begun { IsTrue (T.state tray.new).begun }
    ensures count { KeepsCount (T.state tray.old) (T.state tray.new) result }
    ensures memory { result ≢ Err PlateError.OutOfMemory }
{
    let size = sample_size(maxval);
    let most = (bytes.len() / size) as u64;
    let mut done = 0u64;
    while done < count {
        let want = most.min(count - done);
        judge_piece(
            tray,
            &mut bytes[..want as usize * size],
            maxval,
            start + done * size as u64,
        )?;
        done += want;
    }
    Ok(())
}
