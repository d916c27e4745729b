ghost use Rattle.std.specs.Prelude.{◌≡◌};
ghost use Rattle.pgm_plates.specs.Readers.{plate_from};
ghost use Rattle.pgm_plates.specs.Rows.{plane_with};

use crate::header::Header;
use crate::plate::Plate;
use page_model::parts::{Plane, Tints};

/// Whether the samples of a plate are kept as they are, or turned into tints.
#[derive(Clone, Copy, Drop)]
pub enum Form {
    Samples,
    Tints,
}

/// A plate that was read: its header, and its samples in one of the two forms.
#[derive(Drop)]
pub struct Values {
    pub header: Header,
    pub values: Tints,
}

impl Values {
    /// The plate of these samples.
    pub fn into_plate(self) -> Plate
        ensures { result ≡ plate_from Form.Samples self }
    {
        let Header {
            width,
            height,
            maxval,
        } = self.header;
        Plate {
            width,
            height,
            maxval,
            samples: self.values,
        }
    }

    /// The plane of these tints.
    pub fn into_plane(self) -> Plane
        ensures { result ≡ plane_with self.header self.values }
    {
        let Header {
            width,
            height,
            maxval,
        } = self.header;
        Plane {
            width,
            height,
            maxval,
            tints: self.values,
        }
    }
}
