// What a report speaks of: a page, or the parts of a sheet, whose sides may be larger than a page's.

ghost use Rattle.std.specs.Prelude.{◌≡◌, ◌<◌, ◌≤◌, length};
ghost use Rattle.page_model.specs.declared.parts.PageParts.{PageParts};
ghost use Rattle.page_model.specs.Page.{height, ink_at, maxval, plates, width};

use page_model::page::Page;
use page_model::parts::PageParts;

/// The numbers in the report's second line: the sides in samples, the maxval, and the number of plates.
#[derive(Clone, Copy, Debug, Drop, PartialEq, Eq)]
pub(crate) struct Head {
    pub(crate) width: u32,
    pub(crate) height: u32,
    pub(crate) maxval: u32,
    pub(crate) plates: u64,
}

/// What has a report.
pub(crate) trait Reported {
    ghost parts: { Self → PageParts };

    fn head(&self) -> Head
        requires { 1 ≤ plates (parts self.now) }
        ensures width { result.width ≡ width (parts self.now) }
        ensures height { result.height ≡ height (parts self.now) }
        ensures maxval { result.maxval ≡ maxval (parts self.now) }
        ensures plates { result.plates ≡ plates (parts self.now) };

    fn zone_count(&self) -> usize
        ensures { result ≡ length (parts self.now).zones };

    fn plate_count(&self) -> usize
        ensures { result ≡ plates (parts self.now) };

    /// The name of a plate's ink.
    fn ink_name(&self, plate: usize) -> &[u8]
        requires plate { plate < plates (parts self.now) }
        requires inks { length (parts self.now).inks ≡ plates (parts self.now) }
        ensures { result.now ≡ (ink_at (parts self.now) plate).name };
}

impl Reported for Page {
    ghost parts = { λ page. page };

    fn head(&self) -> Head {
        Head {
            width: self.width(),
            height: self.height(),
            maxval: self.maxval(),
            plates: u64::from(self.plates()),
        }
    }

    fn zone_count(&self) -> usize {
        self.zones() as usize
    }

    fn plate_count(&self) -> usize {
        self.plates() as usize
    }

    fn ink_name(&self, plate: usize) -> &[u8] {
        let _few = self.plates();
        self.ink(plate as u32).name.as_slice()
    }
}

impl Reported for PageParts {
    ghost parts = { λ parts. parts };

    fn head(&self) -> Head {
        let planes = self.planes.as_slice();
        let first = &planes[0];
        Head {
            width: first.width,
            height: first.height,
            maxval: first.maxval,
            plates: planes.len() as u64,
        }
    }

    fn zone_count(&self) -> usize {
        self.zones.len()
    }

    fn plate_count(&self) -> usize {
        self.planes.len()
    }

    fn ink_name(&self, plate: usize) -> &[u8] {
        let inks = self.inks.as_slice();
        inks[plate].name.as_slice()
    }
}
