ghost use Rattle.std.specs.Prelude.{IsTrue, ◌≡◌, ◌≢◌, ◌≤◌, ◌<◌, ◌*◌, ◌^◌, [], length, take, IfOk, IfErr, OnOk, Err};
ghost use Rattle.outside.specs.ErrorCases.{Rose};
ghost use Rattle.outside.specs.Reading.{Takes};
ghost use Rattle.page_model.specs.Limits.{most_maxval};
ghost use Rattle.pgm_plates.specs.Limits.{most_header};
ghost use Rattle.pgm_plates.specs.Planes.{map_ok};
ghost use Rattle.pgm_plates.specs.Plates.{sample_size as bytes_of_sample};
ghost use Rattle.pgm_plates.specs.Images.{IsNearError};
ghost use Rattle.pgm_plates.specs.Reading.{KeepsCount};
ghost use Rattle.pgm_plates.specs.Readers.{Fit, JudgesPiece, ReadsPiece, ReadsRaster, samples_from};

use crate::plate::{PlateError, PlateFault};
use crate::samples::{decode, first_above, sample_size};
use crate::turning::turn;
use crate::values::Form;
use lists::list::List;
use outside::tray::{DeviceError, Tray};
use page_model::parts::Tints;
use std::alloc::{AllocError, Global};

// How many samples are read in one go at most.
const PIECE: usize = 65_536;

/// Reads `count` samples of a raster (pgm(5), section THE FORMAT), whose first byte is at `start` in the file, and
/// keeps them as samples or as tints.
pub fn read_raster<T: Tray>(
    alloc: Global,
    tray: &mut T,
    count: usize,
    maxval: u32,
    start: u64,
    form: Form,
) -> Result<Tints, PlateError>
    requires begun { IsTrue (T.state tray.old).begun }
    requires start { start ≤ most_header }
    requires first { 0 < start }
    requires some { 0 < count }
    requires count { count ≤ 2 ^ 36 }
    requires maxval { maxval ≤ most_maxval }
    ensures answer { let samples = map_ok (samples_from form maxval) result in
        ReadsRaster maxval count start (T.state tray.old) (T.state tray.new) samples }
    ensures below { IfOk result (Fit maxval) }
    ensures count { KeepsCount (T.state tray.old) (T.state tray.new) result }
    ensures near { IfErr result IsNearError }
    ensures uncut { result ≢ Err (PlateError.Fault (PlateFault.Truncated 0)) }
{
    let most = count.min(PIECE);
    let Ok(mut piece) = no_samples(alloc, most) else {
        return Err(PlateError::OutOfMemory);
    };
    let Ok(mut bytes) = no_bytes(alloc, 2 * most) else {
        return Err(PlateError::OutOfMemory);
    };
    let Ok(mut values) = Vec::with_capacity(alloc, count) else {
        return Err(PlateError::OutOfMemory);
    };
    match read_pieces(
        tray,
        &mut values,
        &mut piece,
        &mut bytes,
        count,
        maxval,
        start,
        form,
    ) {
        Ok(()) => Ok(List::from_vec(values)),
        Err(error) => Err(error),
    }
}

// The lengths of the two buffers are parameters, so that no proof unfolds lists of that length.
fn no_samples(alloc: Global, len: usize) -> Result<Vec<u16>, AllocError>
    ensures { IfOk result (λ samples. length samples.items ≡ len) }
{
    vec![in alloc; 0u16; len]
}

fn no_bytes(alloc: Global, len: usize) -> Result<Vec<u8>, AllocError>
    ensures { IfOk result (λ bytes. length bytes.items ≡ len) }
{
    vec![in alloc; 0u8; len]
}

// Reads samples after the ones that are there, until there are that many. Each piece has its form before it is appended.
fn read_pieces<T: Tray>(
    tray: &mut T,
    values: &mut Vec<u16>,
    piece: &mut [u16],
    bytes: &mut [u8],
    count: usize,
    maxval: u32,
    start: u64,
    form: Form,
) -> Result<(), PlateError>
    requires begun { IsTrue (T.state tray.old).begun }
    requires start { start ≤ most_header }
    requires first { 0 < start }
    requires count { count ≤ 2 ^ 36 }
    requires maxval { maxval ≤ most_maxval }
    requires some { 0 < length piece.old }
    requires workspace { 2 * length piece.old ≤ length bytes.old }
    requires empty { values.old.items ≡ [] }
    ensures answer { let samples = samples_from form maxval values.new.items in
        ReadsPiece maxval count start (T.state tray.old) (T.state tray.new) result samples }
    ensures below { OnOk result (Fit maxval values.new.items) }
    ensures count { KeepsCount (T.state tray.old) (T.state tray.new) result }
    ensures near { IfErr result IsNearError }
    ensures uncut { result ≢ Err (PlateError.Fault (PlateFault.Truncated 0)) }
{
    let size = sample_size(maxval);
    while values.len() < count {
        let done = values.len();
        let want = piece.len().min(count - done);
        read_values(
            tray,
            &mut piece[..want],
            &mut bytes[..want * size],
            maxval,
            start + (done * size) as u64,
            form,
        )?;
        values.extend_from_slice(&piece[..want])?;
    }
    Ok(())
}

// Reads as many samples as there is room for, and leaves them in that form.
fn read_values<T: Tray>(
    tray: &mut T,
    values: &mut [u16],
    bytes: &mut [u8],
    maxval: u32,
    start: u64,
    form: Form,
) -> Result<(), PlateError>
    requires begun { IsTrue (T.state tray.old).begun }
    requires start { start < 2 ^ 40 }
    requires count { length values.old ≤ 2 ^ 36 }
    requires maxval { maxval ≤ most_maxval }
    requires workspace { length bytes.old ≡ length values.old * bytes_of_sample maxval }
    ensures answer { let count = length values.new in
        let samples = samples_from form maxval values.new in
        ReadsPiece maxval count start (T.state tray.old) (T.state tray.new) result samples }
    ensures below { OnOk result (Fit maxval values.new) }
    ensures begun { IsTrue (T.state tray.new).begun }
    ensures count { KeepsCount (T.state tray.old) (T.state tray.new) result }
    ensures near { IfErr result IsNearError }
    ensures uncut { 0 < start → result ≢ Err (PlateError.Fault (PlateFault.Truncated 0)) }
    ensures memory { result ≢ Err PlateError.OutOfMemory }
{
    read_piece(tray, values, bytes, maxval, start)?;
    turn_to(form, values, maxval);
    Ok(())
}

// Turns samples into that form.
fn turn_to(form: Form, values: &mut [u16], maxval: u32)
    requires maxval { maxval ≤ most_maxval }
    requires below { Fit maxval values.old }
    ensures samples { samples_from form maxval values.new ≡ values.old }
    ensures below { Fit maxval values.new }
{
    match form {
        Form::Samples => {}
        Form::Tints => turn(values, maxval),
    }
}

/// Reads the next samples into `samples` and fills it. `bytes` is the buffer that they are read into first, of
/// `sample_size(maxval)` bytes a sample; `start` is the place of the first byte in the file.
pub fn read_piece<T: Tray>(
    tray: &mut T,
    samples: &mut [u16],
    bytes: &mut [u8],
    maxval: u32,
    start: u64,
) -> Result<(), PlateError>
    requires begun { IsTrue (T.state tray.old).begun }
    requires start { start < 2 ^ 40 }
    requires count { length samples.old ≤ 2 ^ 36 }
    requires workspace { length bytes.old ≡ length samples.old * bytes_of_sample maxval }
    ensures answer { let count = length samples.new in
        ReadsPiece maxval count start (T.state tray.old) (T.state tray.new) result samples.new }
    ensures begun { IsTrue (T.state tray.new).begun }
    ensures count { KeepsCount (T.state tray.old) (T.state tray.new) result }
    ensures near { IfErr result IsNearError }
    ensures uncut { 0 < start → result ≢ Err (PlateError.Fault (PlateFault.Truncated 0)) }
    ensures memory { result ≢ Err PlateError.OutOfMemory }
{
    judge_piece(tray, bytes, maxval, start)?;
    decode(bytes, maxval, samples);
    Ok(())
}

/// Reads the next bytes of a raster into `bytes`, fills it, and checks that no sample is above the maxval. `start` is
/// the place of the first byte in the file.
pub fn judge_piece<T: Tray>(
    tray: &mut T,
    bytes: &mut [u8],
    maxval: u32,
    start: u64,
) -> Result<(), PlateError>
    requires begun { IsTrue (T.state tray.old).begun }
    requires start { start < 2 ^ 40 }
    requires workspace { length bytes.old ≤ 2 ^ 37 }
    ensures answer { let bytes = bytes.new in
        JudgesPiece maxval bytes start (T.state tray.old) (T.state tray.new) result }
    ensures begun { IsTrue (T.state tray.new).begun }
    ensures count { KeepsCount (T.state tray.old) (T.state tray.new) result }
    ensures near { IfErr result IsNearError }
    ensures uncut { 0 < start → result ≢ Err (PlateError.Fault (PlateFault.Truncated 0)) }
    ensures memory { result ≢ Err PlateError.OutOfMemory }
{
    let (filled, end) = fill(tray, bytes);
    // What was filled before the file ended or a read failed is judged first.
    match first_above(&bytes[..filled], maxval) {
        Some(place) => Err(PlateError::Fault(PlateFault::SampleAboveMaxval(
            start + (place * sample_size(maxval)) as u64,
        ))),
        None => match end {
            Filled::Whole => Ok(()),
            Filled::End => Err(PlateError::Fault(PlateFault::Truncated(start + filled as u64))),
            Filled::Broken => Err(PlateError::ReadFault),
        },
    }
}

/// Why reading into a buffer ended.
#[derive(Clone, Copy, Drop)]
pub enum Filled {
    Whole,
    End,
    Broken,
}

// Reads until the buffer is full, the file ends or a read fails, and says how many bytes are there.
fn fill<T: Tray>(tray: &mut T, buf: &mut [u8]) -> (usize, Filled)
    requires { IsTrue (T.state tray.old).begun }
    ensures within { result.0 ≤ length buf.new }
    ensures takes { Takes (take result.0 buf.new) (T.state tray.old) (T.state tray.new) }
    ensures whole { result.1 ≡ Filled.Whole → result.0 ≡ length buf.new }
    ensures ended { result.1 ≡ Filled.End → (result.0 < length buf.new)
        × (IsTrue (T.state tray.old).tells → (T.state tray.new).left ≡ []) }
    ensures count { result.1 ≢ Filled.Broken →
        (T.state tray.new).faults ≡ (T.state tray.old).faults }
    ensures broken { result.1 ≡ Filled.Broken →
        Rose (T.state tray.old).faults (T.state tray.new).faults }
{
    let mut done = 0usize;
    while done < buf.len() {
        match tray.read(&mut buf[done..]) {
            Ok(0) => return (done, Filled::End),
            Ok(count) => done += count,
            Err(DeviceError) => return (done, Filled::Broken),
        }
    }
    (done, Filled::Whole)
}
