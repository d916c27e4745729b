ghost use Rattle.std.specs.Prelude.{◌≡◌, ◌≢◌, ◌<◌, ◌≤◌, ◌^◌, IsTrue, IfErr, length, map, Err};
ghost use Rattle.pgm_plates.specs.Limits.{most_header};
ghost use Rattle.pgm_plates.specs.Rows.{samples_of};
ghost use Rattle.plate_rows.specs.Judging.{JudgesPlate, JudgesRest, JudgesShare, first_error, error_at};
ghost use Rattle.page_model.specs.Limits.{most_plates};

use common_errors::common::CommonError;
use outside::tray::Tray;
use pgm_plates::bounds::Bounds;
use pgm_plates::plate::PlateError;
use pgm_plates::rows::{Header, OpenPlate, begin_plate, end_plate, judge_rows};
use std::convert::AsStr;

/// The first of some plates that is refused, by its number among them, and why.
#[derive(Clone, Copy, Drop)]
pub struct PlateErrorAt {
    pub plate: u32,
    pub plate_error: PlateError,
}

/// The answer for two shares of plates together: the error of the first one, or else that of the second, whose plates
/// are numbered after the `count` plates of the first.
pub fn first_of(
    count: u32,
    first: Result<(), PlateErrorAt>,
    second: Result<(), PlateErrorAt>,
) -> Result<(), PlateErrorAt>
    requires few { count ≤ most_plates }
    requires known { IfErr second (λ error. error.plate < most_plates) }
    ensures { result ≡ first_error count first second }
{
    match (first, second) {
        (Ok(()), Ok(())) => Ok(()),
        (Ok(()), Err(error)) => Err(PlateErrorAt {
            plate: count + error.plate,
            plate_error: error.plate_error,
        }),
        (Err(error), _) => Err(error),
    }
}

/// Checks the plates of these files one after the other, file k by tray k, and writes their headers to `headers`. It
/// reads by pieces of `PIECE` bytes: a parameter, so that no proof unfolds lists of that length.
///
/// The error is the error of the first refused plate, a fault by the limits of a sheet or a failed read, with its
/// number among these files; memory is never what was wanted. Whether a plate after it was begun is not said.
pub fn judge_by<T: Tray, S: AsStr, const PIECE: usize>(
    inputs: &[S],
    trays: &mut [T],
    headers: &mut [Header],
) -> Result<(), PlateErrorAt>
    requires some { 2 ≤ PIECE }
    requires small { PIECE ≤ 2 ^ 20 }
    requires few { length inputs.now ≤ most_plates }
    requires trays { length inputs.now ≤ length trays.old }
    requires headers { length inputs.now ≤ length headers.old }
    ensures { JudgesShare (map S.text inputs.now) headers.new (map T.state trays.old)
        (map T.state trays.new) result }
{
    let mut bytes = [0u8; PIECE];
    judge_each(inputs, trays, headers, bytes.as_mut_slice())
}

fn judge_each<T: Tray, S: AsStr>(
    inputs: &[S],
    trays: &mut [T],
    headers: &mut [Header],
    bytes: &mut [u8],
) -> Result<(), PlateErrorAt>
    requires few { length inputs.now ≤ most_plates }
    requires trays { length inputs.now ≤ length trays.old }
    requires headers { length inputs.now ≤ length headers.old }
    requires workspace { 2 ≤ length bytes.old }
    ensures { JudgesShare (map S.text inputs.now) headers.new (map T.state trays.old)
        (map T.state trays.new) result }
{
    for place in 0..inputs.len() {
        match judge_plate(&mut trays[place], inputs[place].as_str(), bytes) {
            Ok(header) => headers[place] = header,
            Err(common_error) => {
                return Err(PlateErrorAt {
                    plate: place as u32,
                    plate_error: common_error,
                });
            }
        }
    }
    Ok(())
}

/// The error of a plate, with its number.
pub fn error_at_plate(error: PlateErrorAt) -> CommonError
    ensures { result ≡ error_at error.plate error.plate_error }
{
    match error.plate_error {
        PlateError::Fault(fault) => CommonError::Plate(error.plate, fault),
        PlateError::ReadFault => CommonError::Read(Some(error.plate)),
        PlateError::OutOfMemory => CommonError::Memory,
    }
}

/// Reads the file `name` to its end as a plate of a sheet, and returns its header; its samples are checked and not
/// kept. `bytes` is the buffer that they are read through, piece by piece.
///
/// It allocates nothing. The error is the one of `read_plate_within`.
pub fn judge_plate<T: Tray>(
    tray: &mut T,
    name: &str,
    bytes: &mut [u8],
) -> Result<Header, PlateError>
    requires workspace { 2 ≤ length bytes.old }
    ensures answer { JudgesPlate name.now (T.state tray.old) (T.state tray.new) result }
    ensures memory { result ≢ Err PlateError.OutOfMemory }
{
    let plate = begin_plate(tray, name, Bounds::Sheet)?;
    judge_rest(tray, plate, bytes)?;
    Ok(plate.header)
}

// Reads the rest of a plate whose header was read.
fn judge_rest<T: Tray>(tray: &mut T, plate: OpenPlate, bytes: &mut [u8]) -> Result<(), PlateError>
    requires begun { IsTrue (T.state tray.old).begun }
    requires header { plate.size ≤ most_header }
    requires count { samples_of plate.header ≤ 2 ^ 36 }
    requires workspace { 2 ≤ length bytes.old }
    ensures answer { JudgesRest plate (T.state tray.old) (T.state tray.new) result }
    ensures memory { result ≢ Err PlateError.OutOfMemory }
{
    let count = plate.header.width as u64 * plate.header.height as u64;
    judge_rows(tray, plate, 0, count, bytes)?;
    end_plate(tray, plate)
}
