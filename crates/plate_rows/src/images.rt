ghost use Rattle.std.specs.Prelude.{◌≡◌, ◌<◌, ◌≤◌, ◌*◌, ℕ, IsTrue, length, map};
ghost use Rattle.std.specs.List.{All};
ghost use Rattle.page_model.specs.Limits.{most_maxval, most_plates};
ghost use Rattle.plate_rows.specs.Images.{BeginsImages, EndsImages, WritesNext, part_at};
ghost use Rattle.plate_rows.specs.Racks.{rack_at};

use common_errors::common::CommonError;
use outside::rack::Rack;
use outside::tray::DeviceError;
use pgm_plates::rows::Header;
use pgm_plates::writing::{begin_image, end_image, write_rows};
use std::convert::AsStr;

/// Creates the files of these names, file k by rack k, and writes the header to each of them. It allocates nothing.
///
/// Where a call of a rack fails, it stops with `Write` and the plate's number, and no later file is created.
pub fn begin_images<R: Rack, S: AsStr>(
    racks: &mut [R],
    outputs: &[S],
    header: Header,
) -> Result<(), CommonError>
    requires few { length outputs.now ≤ most_plates }
    requires racks { length outputs.now ≤ length racks.old }
    ensures { BeginsImages (map S.text outputs.now) header (map R.state racks.old)
        (map R.state racks.new) result }
{
    for place in 0..outputs.len() {
        match begin_image(&mut racks[place], outputs[place].as_str(), header) {
            Ok(()) => {}
            Err(DeviceError) => return Err(CommonError::Write(Some(place as u32))),
        }
    }
    Ok(())
}

/// Writes the next tints of `count` plates, turned into samples, plate k by rack k. `tints` has `each` tints of every
/// plate, one plate after the other; `bytes` is the buffer that samples are encoded in, piece by piece.
///
/// Where a call of a rack fails, it stops with `Write` and the plate's number.
pub fn write_next<R: Rack>(
    racks: &mut [R],
    count: usize,
    header: Header,
    tints: &[u16],
    each: usize,
    bytes: &mut [u8],
) -> Result<(), CommonError>
    requires few { count ≤ most_plates }
    requires racks { count ≤ length racks.old }
    requires open { (k : ℕ) → k < count → IsTrue (rack_at (map R.state racks.old) k).is_open }
    requires tints { length tints.now ≡ count * each }
    requires workspace { 2 ≤ length bytes.old }
    requires maxval { header.maxval ≤ most_maxval }
    requires fits { All (λ t. t ≤ header.maxval) tints.now }
    ensures { WritesNext count header (part_at each tints.now) (map R.state racks.old)
        (map R.state racks.new) result }
{
    for place in 0..count {
        let from = place * each;
        let part = &tints[from..from + each];
        match write_rows(&mut racks[place], header, part, bytes) {
            Ok(()) => {}
            Err(DeviceError) => return Err(CommonError::Write(Some(place as u32))),
        }
    }
    Ok(())
}

/// Finishes the files of `count` plates, file k by rack k.
///
/// Where that fails, it stops with `Write` and the plate's number.
pub fn end_images<R: Rack>(racks: &mut [R], count: usize) -> Result<(), CommonError>
    requires few { count ≤ most_plates }
    requires racks { count ≤ length racks.old }
    requires open { (k : ℕ) → k < count → IsTrue (rack_at (map R.state racks.old) k).is_open }
    ensures { EndsImages count (map R.state racks.old) (map R.state racks.new) result }
{
    for place in 0..count {
        match end_image(&mut racks[place]) {
            Ok(()) => {}
            Err(DeviceError) => return Err(CommonError::Write(Some(place as u32))),
        }
    }
    Ok(())
}
