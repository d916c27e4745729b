ghost use Rattle.std.specs.Prelude.{◌≡◌};
ghost use Rattle.pgm_plates.specs.Limits.{samples_within, side_within};

use page_model::bounds::{MOST_SAMPLES, MOST_SHEET_SIDE, MOST_SIDE};

/// The limits on the sides and samples of a plate that is read. The grammar is the same for both.
#[derive(Clone, Copy, Debug, Drop, PartialEq, Eq)]
pub enum Bounds {
    /// A page's: sides of at most 16,384 samples, and at most 160,000,000 samples.
    Page,
    /// A sheet's: sides of at most 262,144 samples, and no further limit.
    Sheet,
}

impl Bounds {
    /// The greatest width or height.
    pub fn side(self) -> u32
        ensures { result ≡ side_within self }
    {
        match self {
            Bounds::Page => MOST_SIDE,
            Bounds::Sheet => MOST_SHEET_SIDE,
        }
    }

    /// The greatest number of samples of a plate.
    pub fn samples(self) -> u64
        ensures { result ≡ samples_within self }
    {
        match self {
            Bounds::Page => MOST_SAMPLES,
            Bounds::Sheet => 68_719_476_736,
        }
    }
}
