ghost use Rattle.std.specs.Prelude.{◌≡◌, ◌≤◌, ◌<◌, ◌*◌, ◌^◌, ◌⊎◌, ℕ, MatchOption, MatchResult, length, slice_index};
ghost use Rattle.raster_samples.specs.Checks.{IsRaster};
ghost use Rattle.raster_samples.specs.Reads.{AreRead, AreTints, IsFirstAbove, IsIn};
ghost use Rattle.raster_samples.specs.Samples.{turned as turned_spec};
ghost use Rattle.raster_samples.specs.Runs.{AreNumbers, IsRunIn};
ghost use Rattle.raster_samples.specs.Rows.{AreRowTints, IsFirstAboveIn, IsRowRead, IsTurned};

use crate::raster::{Raster, Rectangle, Zero};
use crate::run::{Run, run_from};

/// The place of a number above the maxval, counted from the upper left sample of the rectangle.
#[derive(Clone, Copy, Debug, Drop, PartialEq, Eq)]
pub struct Above {
    pub row: u32,
    pub column: u32,
}

/// Reads a rectangle as tints, row after row: 0 is no ink. If a number is above the maxval, some of the tints are not
/// read.
pub fn read(raster: &Raster, bytes: &[u8], rect: Rectangle, tints: &mut [u16]) -> Result<(), Above>
    requires raster { IsRaster raster.now (length bytes.now) }
    requires rect { IsIn raster.now rect }
    requires room { length tints.old ≡ rect.height * rect.width }
    ensures { MatchResult result
        (λ _. AreRead raster.now bytes.now rect rect.height tints.new)
        (λ above. IsFirstAbove raster.now bytes.now rect above.row above.column) }
{
    let width = rect.width as usize;
    for y in 0..rect.height {
        let from = y as usize * width;
        let row = &mut tints[from..from + width];
        if let Some(column) = read_row(raster, bytes, rect, y, row) {
            return Err(Above { row: y, column });
        }
    }
    Ok(())
}

/// Reads a rectangle as tints without a check of the numbers: one that is above the maxval stays as it is.
pub fn copy_tints(raster: &Raster, bytes: &[u8], rect: Rectangle, tints: &mut [u16])
    requires raster { IsRaster raster.now (length bytes.now) }
    requires rect { IsIn raster.now rect }
    requires room { length tints.old ≡ rect.height * rect.width }
    ensures { AreTints raster.now bytes.now rect rect.height tints.new }
{
    let width = rect.width as usize;
    for y in 0..rect.height {
        let from = y as usize * width;
        copy_row(raster, bytes, rect, y, &mut tints[from..from + width]);
    }
}

// Reads row y of the rectangle, and returns the first column whose number is above the maxval.
fn read_row(raster: &Raster, bytes: &[u8], rect: Rectangle, y: u32, row: &mut [u16]) -> Option<u32>
    requires raster { IsRaster raster.now (length bytes.now) }
    requires rect { IsIn raster.now rect }
    requires inside { y < rect.height }
    requires room { length row.old ≡ rect.width }
    ensures { MatchOption result (IsRowRead raster.now bytes.now rect y row.new)
        (λ x. IsFirstAboveIn raster.now bytes.now rect y x) }
{
    copy_row(raster, bytes, rect, y, row);
    first_above(row, raster.maxval)
}

fn copy_row(raster: &Raster, bytes: &[u8], rect: Rectangle, y: u32, row: &mut [u16])
    requires raster { IsRaster raster.now (length bytes.now) }
    requires rect { IsIn raster.now rect }
    requires inside { y < rect.height }
    requires room { length row.old ≡ rect.width }
    ensures { AreRowTints raster.now bytes.now rect y row.new }
{
    let run = run_from(raster, rect.plane, rect.top + y, rect.left);
    read_numbers(raster.sample_size, bytes, run, row);
    turn(raster.zero, raster.maxval, row);
}

// Reads the numbers of a run of samples.
fn read_numbers(size: u32, bytes: &[u8], run: Run, row: &mut [u16])
    requires size { (size ≡ 1) ⊎ (size ≡ 2) }
    requires inside { IsRunIn run size (length row.old) (length bytes.now) }
    ensures { AreNumbers run size bytes.now (length row.old) row.new }
{
    if size == 2 {
        read_words(bytes, run, row);
    } else if run.forward == 1 && run.back == 0 {
        // The strides as constants, so that the loop is vectorized.
        let beside = Run {
            from: run.from,
            forward: 1,
            back: 0,
        };
        read_bytes(bytes, beside, row);
    } else {
        read_bytes(bytes, run, row);
    }
}

fn read_bytes(bytes: &[u8], run: Run, row: &mut [u16])
    requires { IsRunIn run 1 (length row.old) (length bytes.now) }
    ensures { AreNumbers run 1 bytes.now (length row.old) row.new }
{
    for x in 0..row.len() {
        row[x] = bytes[run.from + x * run.forward - x * run.back] as u16;
    }
}

fn read_words(bytes: &[u8], run: Run, row: &mut [u16])
    requires { IsRunIn run 2 (length row.old) (length bytes.now) }
    ensures { AreNumbers run 2 bytes.now (length row.old) row.new }
{
    for x in 0..row.len() {
        let at = run.from + x * run.forward - x * run.back;
        row[x] = bytes[at] as u16 + 256 * bytes[at + 1] as u16;
    }
}

// The first number above the maxval. All are read first, without a branch, so that the loop is vectorized.
fn first_above(row: &[u16], maxval: u32) -> Option<u32>
    requires { length row.now < 2 ^ 32 }
    ensures { MatchOption result ((x : ℕ) → x < length row.now → slice_index row.now x ≤ maxval)
        (λ at. (at < length row.now) × (maxval < slice_index row.now at)
        × ((x : ℕ) → x < at → slice_index row.now x ≤ maxval)) }
{
    if greatest(row) as u32 <= maxval {
        return None;
    }
    for x in 0..row.len() {
        if row[x] as u32 > maxval {
            return Some(x as u32);
        }
    }
    None
}

fn greatest(row: &[u16]) -> u16
    ensures { (x : ℕ) → x < length row.now → slice_index row.now x ≤ result }
{
    let mut most = 0u16;
    for number in row {
        most = most.max(*number);
    }
    most
}

// Makes tints of numbers.
fn turn(zero: Zero, maxval: u32, row: &mut [u16])
    requires { maxval ≤ 65535 }
    ensures { IsTurned zero maxval row.old row.new }
{
    match zero {
        Zero::Paper => {}
        Zero::Ink => {
            for number in row.iter_mut() {
                *number = turned(*number, maxval);
            }
        }
    }
}

fn turned(number: u16, maxval: u32) -> u16
    requires { maxval ≤ 65535 }
    ensures { result ≡ turned_spec Zero.Ink maxval number }
{
    if number as u32 <= maxval {
        (maxval - number as u32) as u16
    } else {
        number
    }
}
