ghost use Rattle.std.specs.Prelude.{IsTrue, ◌≡◌, ◌≢◌, ◌+◌, ◌*◌, ◌<◌, ◌≤◌, ◌^◌, Ok, Err, Some, None, IfOk, IfSome, IfErr};
ghost use Rattle.page_model.specs.Conditions.{IsPlane};
ghost use Rattle.page_model.specs.Limits.{most_samples};
ghost use Rattle.pgm_plates.specs.Images.{IsNear, IsNearError, ReadsImage, PageAnswers, further_error};
ghost use Rattle.pgm_plates.specs.Planes.{map_ok, map_some, plate_of};
ghost use Rattle.pgm_plates.specs.Readers.{Fit, image_from, plate_from};
ghost use Rattle.pgm_plates.specs.Reading.{KeepsCount};
ghost use Rattle.pgm_plates.specs.Sequences.{ReadsPage, further as further_on};

use crate::bounds::Bounds;
use crate::plate::{Plate, PlateError, PlateFault};
use crate::raster::read_raster;
use crate::reading::read_header;
use crate::samples::sample_size;
use crate::values::{Form, Values};
use outside::tray::Tray;
use page_model::parts::Plane;
use std::alloc::Global;

/// Reads plate number `page`, counted from 0, of the file `name`, in which plate files stand one directly after the
/// other (pgm(5), section THE FORMAT). `None` where the file ends before it.
///
/// The error is the first fault of an image that is no plate file, at its place in the file, a read that failed
/// before there was one, or out of memory.
pub fn read_page<T: Tray>(
    alloc: Global,
    tray: &mut T,
    name: &str,
    page: u32,
) -> Result<Option<Plate>, PlateError>
    ensures { ReadsPage name.now page (T.state tray.old) (T.state tray.new) result }
{
    match read_named(alloc, tray, name, page, Form::Samples)? {
        Some(read) => Ok(Some(read.into_plate())),
        None => Ok(None),
    }
}

/// Reads plate number `page` of the file `name` as a plane: each sample is turned into its tint, `maxval - sample`, as
/// soon as it is read.
///
/// It answers what `read_page` does, with `Plate::into_plane` after it.
pub fn read_page_plane<T: Tray>(
    alloc: Global,
    tray: &mut T,
    name: &str,
    page: u32,
) -> Result<Option<Plane>, PlateError>
    ensures plate { ReadsPage name.now page (T.state tray.old) (T.state tray.new)
        (map_ok (map_some plate_of) result) }
    ensures in_range { IfOk result (λ read. IfSome read IsPlane) }
    ensures few { IfOk result (λ read. IfSome read
        (λ plane. plane.width * plane.height ≤ most_samples)) }
{
    match read_named(alloc, tray, name, page, Form::Tints)? {
        Some(read) => Ok(Some(read.into_plane())),
        None => Ok(None),
    }
}

// Reads the image of that number from the file of that name, and keeps its samples in that form.
fn read_named<T: Tray>(
    alloc: Global,
    tray: &mut T,
    name: &str,
    page: u32,
    form: Form,
) -> Result<Option<Values>, PlateError>
    ensures answer { ReadsPage name.now page (T.state tray.old) (T.state tray.new)
        (map_ok (map_some (plate_from form)) result) }
    ensures below { IfOk result (λ read. IfSome read (λ r. Fit r.header.maxval r.values)) }
{
    tray.begin(name)?;
    read_images(alloc, tray, page, form)
}

// Reads on to the image of that number.
fn read_images<T: Tray>(
    alloc: Global,
    tray: &mut T,
    page: u32,
    form: Form,
) -> Result<Option<Values>, PlateError>
    requires { IsTrue (T.state tray.old).begun }
    ensures answer { PageAnswers page (T.state tray.old) (T.state tray.new)
        (map_ok (map_some (plate_from form)) result) }
    ensures count { KeepsCount (T.state tray.old) (T.state tray.new)
        (map_ok (map_some (plate_from form)) result) }
    ensures below { IfOk result (λ read. IfSome read (λ r. Fit r.header.maxval r.values)) }
{
    let mut start = 0u64;
    for _ in 0..page {
        match read_image(alloc, tray, form) {
            Ok(Some((_, size))) => start += size,
            Ok(None) => return Ok(None),
            Err(error) => return Err(further_error(error, start)),
        }
    }
    match read_image(alloc, tray, form) {
        Ok(Some((read, _))) => Ok(Some(read)),
        Ok(None) => Ok(None),
        Err(error) => Err(further_error(error, start)),
    }
}

// Reads one image from what is left of the file, and says how many bytes it has. There is none where nothing is left.
fn read_image<T: Tray>(
    alloc: Global,
    tray: &mut T,
    form: Form,
) -> Result<Option<(Values, u64)>, PlateError>
    requires { IsTrue (T.state tray.old).begun }
    ensures answer { ReadsImage (T.state tray.old) (T.state tray.new)
        (map_ok (map_some (image_from form)) result) }
    ensures below { IfOk result (λ read. IfSome read (λ r. Fit r.0.header.maxval r.0.values)) }
    ensures count { KeepsCount (T.state tray.old) (T.state tray.new) result }
    ensures near { IfErr result IsNearError }
    ensures some { result ≢ Err (PlateError.Fault (PlateFault.Truncated 0)) }
    ensures small { IfOk result (λ read. IfSome read (λ r. r.1 < 2 ^ 30)) }
{
    let (header, start) = match read_header(tray, Bounds::Page) {
        Ok(read) => read,
        Err(PlateError::Fault(PlateFault::Truncated(0))) => return Ok(None),
        Err(error) => return Err(error),
    };
    let count = header.width as usize * header.height as usize;
    match read_raster(alloc, tray, count, header.maxval, start, form) {
        Ok(values) => {
            let size = start + (count * sample_size(header.maxval)) as u64;
            Ok(Some((Values { header, values }, size)))
        }
        Err(error) => Err(error),
    }
}

// The error of an image that begins at that place of the file.
fn further_error(error: PlateError, start: u64) -> PlateError
    requires near { IsNearError error }
    requires start { start ≤ 2 ^ 62 }
    ensures { result ≡ further_error start error }
{
    match error {
        PlateError::Fault(fault) => PlateError::Fault(further(fault, start)),
        other => other,
    }
}

fn further(fault: PlateFault, start: u64) -> PlateFault
    requires near { IsNear fault }
    requires start { start ≤ 2 ^ 62 }
    ensures { result ≡ further_on start fault }
{
    match fault {
        PlateFault::BadMagic(at) => PlateFault::BadMagic(start + at),
        PlateFault::BadHeader(at) => PlateFault::BadHeader(start + at),
        PlateFault::SideRange(at) => PlateFault::SideRange(start + at),
        PlateFault::TooManySamples(at) => PlateFault::TooManySamples(start + at),
        PlateFault::MaxvalRange(at) => PlateFault::MaxvalRange(start + at),
        PlateFault::SampleAboveMaxval(at) => PlateFault::SampleAboveMaxval(start + at),
        PlateFault::Truncated(at) => PlateFault::Truncated(start + at),
        PlateFault::TrailingBytes(_) => unreachable!(),
    }
}
