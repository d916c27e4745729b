ghost use Rattle.std.specs.Prelude.{◌≡◌};
ghost use Rattle.pgm_plates.specs.declared.plate.PlateError.TheVariants.{OutOfMemory, ReadFault};

use outside::tray::DeviceError;
use page_model::parts::Tints;
use std::alloc::AllocError;

/// A plate as its file has it: `width * height` samples, row by row from the top, 0 for black and `maxval` for white.
///
/// A plate that was read has sides from 1 and a number of samples within the bounds that it was read by (`Bounds`), and
/// a maxval from 1 to 65,535 which no sample is above. The raw format is that of pgm(5), section THE FORMAT;
/// docs/PLATES.md says what of it is taken.
#[derive(Drop)]
pub struct Plate {
    pub width: u32,
    pub height: u32,
    pub maxval: u32,
    pub samples: Tints,
}

/// What is wrong with a plate file, and at which byte, counted from 0.
#[derive(Clone, Copy, Debug, Drop, PartialEq, Eq)]
pub enum PlateFault {
    /// The file does not begin with `P5`: at the first byte that differs.
    BadMagic(u64),
    /// The byte cannot stand there in a header, or the header has not ended within 65,536 bytes.
    BadHeader(u64),
    /// The width or the height is 0 or above the most that the bounds allow: at its first digit.
    SideRange(u64),
    /// There are more samples than the bounds allow: at the height's first digit.
    TooManySamples(u64),
    /// The maxval is 0 or above 65,535: at its first digit.
    MaxvalRange(u64),
    /// The sample is above the maxval: at its first byte.
    SampleAboveMaxval(u64),
    /// The file ends there before the plate is whole.
    Truncated(u64),
    /// A byte stands directly after the raster.
    TrailingBytes(u64),
}

/// Why no plate was read.
#[derive(Clone, Copy, Debug, Drop, PartialEq, Eq)]
pub enum PlateError {
    /// The file is no plate file.
    Fault(PlateFault),
    /// The file could not be begun, or a read failed before there was a fault.
    ReadFault,
    /// Memory ran out.
    OutOfMemory,
}

impl From<DeviceError> for PlateError {
    ghost from_gives = { λ _ error. error ≡ ReadFault };

    fn from(_: DeviceError) -> PlateError {
        PlateError::ReadFault
    }
}

impl From<AllocError> for PlateError {
    ghost from_gives = { λ _ error. error ≡ OutOfMemory };

    fn from(_: AllocError) -> PlateError {
        PlateError::OutOfMemory
    }
}
