ghost use Rattle.std.specs.Prelude.{◌≡◌, ◌≢◌, ◌<◌, ◌≤◌, ◌-◌, ◌^◌, ℕ, IsTrue, length, map, Err};
ghost use Rattle.page_model.specs.Planes.{plane_at};
ghost use Rattle.pgm_plates.specs.Limits.{most_header};
ghost use Rattle.pgm_plates.specs.Rows.{samples_of};
ghost use Rattle.plate_rows.specs.Rereading.{BeginsOne, BeginsPlates, EndsPlates, IsReadTo, ReadsAfter, ReadsNext, ReadsPlane, ReadsTints, error_at, wanted};
ghost use Rattle.plate_rows.specs.Trays.{open_at, tray_at};
ghost use Rattle.page_model.specs.Limits.{most_plates};

use crate::error::RereadError;
use lists::list::List;
use outside::tray::Tray;
use page_model::parts::Plane;
use pgm_plates::bounds::Bounds;
use pgm_plates::plate::PlateError;
use pgm_plates::rows::{Header, OpenPlate, begin_plate, end_plate, read_rows};
use pgm_plates::turning::turn;
use std::alloc::Global;
use std::convert::AsStr;

/// Which rows of plates are read next: those after the first `done` samples of each, to each plane after its first
/// `kept` tints.
#[derive(Clone, Copy, Drop)]
pub struct NextRows {
    pub done: u64,
    pub kept: usize,
}

/// Begins the plates of these files once more, file k by tray k, and reads their headers into `plates`. It allocates
/// nothing.
///
/// It stops at the first plate whose header is not the one of `headers` or has a fault now, and at the first that can't
/// be read. No later plate is begun.
pub fn begin_plates<T: Tray, S: AsStr>(
    trays: &mut [T],
    inputs: &[S],
    headers: &[Header],
    plates: &mut [OpenPlate],
) -> Result<(), RereadError>
    requires few { length inputs.now ≤ most_plates }
    requires trays { length inputs.now ≤ length trays.old }
    requires headers { length inputs.now ≤ length headers.now }
    requires plates { length inputs.now ≤ length plates.old }
    ensures { BeginsPlates (map S.text inputs.now) headers.now plates.new
        (map T.state trays.old) (map T.state trays.new) result }
{
    for place in 0..inputs.len() {
        let plate = begin_one(
            &mut trays[place],
            place as u32,
            inputs[place].as_str(),
            headers[place],
        )?;
        plates[place] = plate;
    }
    Ok(())
}

// Begins plate number `plate` once more.
fn begin_one<T: Tray>(
    tray: &mut T,
    plate: u32,
    name: &str,
    header: Header,
) -> Result<OpenPlate, RereadError>
    ensures { BeginsOne name.now header plate (T.state tray.old) (T.state tray.new) result }
{
    match begin_plate(tray, name, Bounds::Sheet) {
        Ok(begun) => {
            if begun.header == header {
                Ok(begun)
            } else {
                Err(RereadError::Changed(plate))
            }
        }
        Err(common_error) => Err(error_of(plate, common_error)),
    }
}

// The error of the second reading: a fault is a change, since the plate had none before.
fn error_of(plate: u32, common_error: PlateError) -> RereadError
    ensures { result ≡ error_at plate common_error }
{
    match common_error {
        PlateError::Fault(_) => RereadError::Changed(plate),
        PlateError::ReadFault | PlateError::OutOfMemory => RereadError::Unread(plate),
    }
}

/// Reads the next rows of each plate, plate k by tray k, and turns their samples into tints of plane k: each plane is
/// filled to its end, after the tints that are kept. `bytes` is the buffer that samples are read through, piece by
/// piece. It allocates nothing.
///
/// It stops at the first plate that has a fault now or can't be read; the tints of the planes must not be used then.
pub fn read_next<T: Tray>(
    alloc: Global,
    trays: &mut [T],
    plates: &[OpenPlate],
    next: NextRows,
    planes: &mut [Plane],
    bytes: &mut [u8],
) -> Result<(), RereadError>
    requires few { length plates.now ≤ most_plates }
    requires trays { length plates.now ≤ length trays.old }
    requires planes { length planes.old ≡ length plates.now }
    requires kept { (k : ℕ) → k < length plates.now
        → next.kept ≤ length (plane_at planes.old k).tints }
    requires read { (k : ℕ) → k < length plates.now
        → IsReadTo (open_at plates.now k) next.done (wanted next.kept planes.old k)
        (tray_at (map T.state trays.old) k) }
    requires workspace { 2 ≤ length bytes.old }
    ensures { ReadsNext plates.now next planes.old planes.new (map T.state trays.old)
        (map T.state trays.new) result }
{
    for place in 0..plates.len() {
        match read_plane(
            alloc,
            &mut trays[place],
            plates[place],
            next,
            &mut planes[place],
            bytes,
        ) {
            Ok(()) => {}
            Err(common_error) => return Err(error_of(place as u32, common_error)),
        }
    }
    Ok(())
}

// Fills a plane with the next rows of a plate, after the tints that are kept.
fn read_plane<T: Tray>(
    alloc: Global,
    tray: &mut T,
    plate: OpenPlate,
    next: NextRows,
    plane: &mut Plane,
    bytes: &mut [u8],
) -> Result<(), PlateError>
    requires kept { next.kept ≤ length plane.old.tints }
    requires read { let more = length plane.old.tints - next.kept in
        IsReadTo plate next.done more (T.state tray.old) }
    requires workspace { 2 ≤ length bytes.old }
    ensures answer { ReadsPlane plate next plane.old plane.new (T.state tray.old)
        (T.state tray.new) result }
    ensures memory { result ≢ Err PlateError.OutOfMemory }
{
    let mut tints = std::mem::replace(&mut plane.tints, List::new(alloc)).into_vec();
    let result = read_after(tray, plate, next, tints.as_mut_slice(), bytes);
    plane.tints = List::from_vec(tints);
    result
}

// Fills a list with the next rows of a plate, after the tints that are kept.
fn read_after<T: Tray>(
    tray: &mut T,
    plate: OpenPlate,
    next: NextRows,
    tints: &mut [u16],
    bytes: &mut [u8],
) -> Result<(), PlateError>
    requires kept { next.kept ≤ length tints.old }
    requires read { let more = length tints.old - next.kept in
        IsReadTo plate next.done more (T.state tray.old) }
    requires workspace { 2 ≤ length bytes.old }
    ensures answer { ReadsAfter plate next tints.old tints.new (T.state tray.old)
        (T.state tray.new) result }
    ensures memory { result ≢ Err PlateError.OutOfMemory }
{
    read_tints(tray, plate, next.done, &mut tints[next.kept..], bytes)
}

/// Reads the next samples of a plate, of which `done` were read before, turns them into tints and fills `tints`.
/// `bytes` is the buffer that they are read through. Each piece is turned before the next one is read, while it is in
/// the cache.
pub fn read_tints<T: Tray>(
    tray: &mut T,
    plate: OpenPlate,
    done: u64,
    tints: &mut [u16],
    bytes: &mut [u8],
) -> Result<(), PlateError>
    requires read { IsReadTo plate done (length tints.old) (T.state tray.old) }
    requires workspace { 2 ≤ length bytes.old }
    ensures answer { ReadsTints plate done tints.new (T.state tray.old) (T.state tray.new) result }
    ensures memory { result ≢ Err PlateError.OutOfMemory }
{
    let most = samples_at_once(bytes.len(), plate.header.maxval);
    let mut filled = 0usize;
    while filled < tints.len() {
        let want = most.min(tints.len() - filled);
        read_piece(
            tray,
            plate,
            done + filled as u64,
            &mut tints[filled..filled + want],
            bytes,
        )?;
        filled += want;
    }
    Ok(())
}

// The number of samples that fit into a buffer.
fn samples_at_once(bytes: usize, maxval: u32) -> usize
    requires { 2 ≤ bytes }
    ensures { 1 ≤ result }
{
    if maxval < 256 { bytes } else { bytes / 2 }
}

// Reads the next samples of a plate and turns them into tints, all at once.
fn read_piece<T: Tray>(
    tray: &mut T,
    plate: OpenPlate,
    done: u64,
    tints: &mut [u16],
    bytes: &mut [u8],
) -> Result<(), PlateError>
    requires read { IsReadTo plate done (length tints.old) (T.state tray.old) }
    requires workspace { 2 ≤ length bytes.old }
    ensures answer { ReadsTints plate done tints.new (T.state tray.old) (T.state tray.new) result }
    ensures memory { result ≢ Err PlateError.OutOfMemory }
{
    read_rows(tray, plate, done, tints, bytes)?;
    turn(tints, plate.header.maxval);
    Ok(())
}

/// Checks that nothing stands after the last sample of each plate, plate k by tray k.
///
/// It stops at the first plate that has a fault now or can't be read.
pub fn end_plates<T: Tray>(trays: &mut [T], plates: &[OpenPlate]) -> Result<(), RereadError>
    requires few { length plates.now ≤ most_plates }
    requires trays { length plates.now ≤ length trays.old }
    requires begun { (k : ℕ) → k < length plates.now
        → IsTrue (tray_at (map T.state trays.old) k).begun }
    requires headers { (k : ℕ) → k < length plates.now
        → (open_at plates.now k).size ≤ most_header }
    requires counts { (k : ℕ) → k < length plates.now
        → samples_of (open_at plates.now k).header ≤ 2 ^ 36 }
    ensures { EndsPlates plates.now (map T.state trays.old) (map T.state trays.new) result }
{
    for place in 0..plates.len() {
        match end_plate(&mut trays[place], plates[place]) {
            Ok(()) => {}
            Err(common_error) => return Err(error_of(place as u32, common_error)),
        }
    }
    Ok(())
}
