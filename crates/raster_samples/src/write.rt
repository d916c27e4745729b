ghost use Rattle.std.specs.Prelude.{◌≡◌, ◌≤◌, ◌<◌, ◌*◌, ◌⊎◌, ℕ, length, slice_index};
ghost use Rattle.raster_samples.specs.Places.{AreApart};
ghost use Rattle.raster_samples.specs.Checks.{IsRaster, most};
ghost use Rattle.raster_samples.specs.Samples.{turned};
ghost use Rattle.raster_samples.specs.Reads.{IsIn};
ghost use Rattle.raster_samples.specs.Writes.{AreWritten};
ghost use Rattle.raster_samples.specs.Runs.{IsRunApart, IsRunIn, IsRunPut};
ghost use Rattle.raster_samples.specs.Rows.{IsRowWritten};

use crate::raster::{Raster, Rectangle, Zero};
use crate::run::{Run, run_from};

/// Writes tints to a rectangle, row after row: 0 is no ink. Bytes of no sample of the rectangle stay as they are.
pub fn write(raster: &Raster, tints: &[u16], rect: Rectangle, bytes: &mut [u8])
    requires raster { IsRaster raster.now (length bytes.old) }
    requires apart { AreApart raster.now }
    requires rect { IsIn raster.now rect }
    requires room { length tints.now ≡ rect.height * rect.width }
    requires fit { (k : ℕ) → k < length tints.now → slice_index tints.now k ≤ raster.now.maxval }
    ensures { AreWritten raster.now tints.now rect rect.height bytes.old bytes.new }
{
    let width = rect.width as usize;
    for y in 0..rect.height {
        let from = y as usize * width;
        write_row(raster, &tints[from..from + width], rect, y, bytes);
    }
}

// Writes row y of the rectangle.
fn write_row(raster: &Raster, row: &[u16], rect: Rectangle, y: u32, bytes: &mut [u8])
    requires raster { IsRaster raster.now (length bytes.old) }
    requires apart { AreApart raster.now }
    requires rect { IsIn raster.now rect }
    requires inside { y < rect.height }
    requires room { length row.now ≡ rect.width }
    requires fit { (x : ℕ) → x < length row.now → slice_index row.now x ≤ raster.now.maxval }
    ensures { IsRowWritten raster.now row.now rect y bytes.old bytes.new }
{
    let _rows = raster.rows.count;
    let run = run_from(raster, rect.plane, rect.top + y, rect.left);
    write_numbers(raster, row, run, bytes);
}

// Writes the numbers of a run of samples.
fn write_numbers(raster: &Raster, row: &[u16], run: Run, bytes: &mut [u8])
    requires size { (raster.now.sample_size ≡ 1) ⊎ (raster.now.sample_size ≡ 2) }
    requires most { raster.now.maxval ≤ most raster.now.sample_size }
    requires inside { IsRunIn run raster.now.sample_size (length row.now) (length bytes.old) }
    requires apart { IsRunApart run raster.now.sample_size (length row.now) }
    requires fit { (x : ℕ) → x < length row.now → slice_index row.now x ≤ raster.now.maxval }
    ensures { IsRunPut run raster.now.sample_size raster.now.zero raster.now.maxval row.now
        (length row.now) bytes.old bytes.new }
{
    let Raster {
        sample_size,
        maxval,
        zero,
        ..
    } = *raster;
    if sample_size == 2 {
        write_words(zero, maxval, row, run, bytes);
    } else if run.forward == 1 && run.back == 0 {
        // The strides as constants, so that the loop is vectorized.
        let beside = Run {
            from: run.from,
            forward: 1,
            back: 0,
        };
        write_bytes(zero, maxval, row, beside, bytes);
    } else {
        write_bytes(zero, maxval, row, run, bytes);
    }
}

fn write_bytes(zero: Zero, maxval: u32, row: &[u16], run: Run, bytes: &mut [u8])
    requires most { maxval ≤ 255 }
    requires inside { IsRunIn run 1 (length row.now) (length bytes.old) }
    requires apart { IsRunApart run 1 (length row.now) }
    requires fit { (x : ℕ) → x < length row.now → slice_index row.now x ≤ maxval }
    ensures { IsRunPut run 1 zero maxval row.now (length row.now) bytes.old bytes.new }
{
    for x in 0..row.len() {
        bytes[run.from + x * run.forward - x * run.back] = turn(zero, maxval, row[x]) as u8;
    }
}

fn write_words(zero: Zero, maxval: u32, row: &[u16], run: Run, bytes: &mut [u8])
    requires most { maxval ≤ 65535 }
    requires inside { IsRunIn run 2 (length row.now) (length bytes.old) }
    requires apart { IsRunApart run 2 (length row.now) }
    requires fit { (x : ℕ) → x < length row.now → slice_index row.now x ≤ maxval }
    ensures { IsRunPut run 2 zero maxval row.now (length row.now) bytes.old bytes.new }
{
    for x in 0..row.len() {
        let at = run.from + x * run.forward - x * run.back;
        let number = turn(zero, maxval, row[x]);
        bytes[at] = (number % 256) as u8;
        bytes[at + 1] = (number / 256) as u8;
    }
}

// A tint as a number.
fn turn(zero: Zero, maxval: u32, tint: u16) -> u16
    requires fit { tint ≤ maxval }
    requires word { maxval ≤ 65535 }
    ensures value { result ≡ turned zero maxval tint }
    ensures fits { result ≤ maxval }
{
    match zero {
        Zero::Paper => tint,
        Zero::Ink => (maxval - tint as u32) as u16,
    }
}
