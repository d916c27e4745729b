ghost use Rattle.std.specs.Prelude.{◌≡◌, ◌<◌, ◌≤◌, ◌^◌, IfOk, length};
ghost use Rattle.page_model.specs.Conditions.{IsPage};
ghost use Rattle.page_model.specs.Limits.{most_resolution};
ghost use Rattle.page_model.specs.Page.{height, maxval, plates, width};
ghost use Rattle.sheet_geometry.specs.Sheets.{IsNearSheet, IsSheet, IsSmall};
ghost use Rattle.sheet_geometry.specs.Windows.{IsCut, right_of, up_of, window};
ghost use Rattle.sheet_geometry.specs.Forms.{form_of};
ghost use Rattle.sheet_geometry.specs.WindowSheets.{IsCuttable};

use crate::copies::{inks_of, zones_of};
use crate::corners::{Corner, corner_of};
use crate::cuts::Cut;
use crate::planes::planes_of;
use crate::refill::{move_zones, show_planes};
use page_model::page::Page;
use page_model::parts::{OutOfMemory, PageParts};
use std::alloc::Global;
use std::marker::Model;

/// A sheet: the parts of a page, with sides below 2^30 samples and no bound on the samples of all planes. Its vertices
/// are in range from each of its corners.
#[derive(Drop)]
pub struct Sheet {
    parts: PageParts,
}

impl Model for Sheet {
    ghost use Rattle.page_model.specs.declared.parts.PageParts.{PageParts};

    ghost Value = { PageParts };

    ghost use Rattle.sheet_geometry.specs.WindowSheets.{IsCuttable};

    ghost view = { λ a. a.parts };

    ghost invariant = { λ a. IsCuttable a.parts };
}

impl Sheet {
    /// Makes a sheet of these parts.
    pub fn of(parts: PageParts) -> Sheet
        requires { IsCuttable parts }
        ensures { result ≡ parts }
    {
        Sheet { parts }
    }

    /// The number of samples in a row.
    pub fn width(&self) -> u32
        ensures value { result ≡ width self.now }
        ensures valid { IsCuttable self.now }
    {
        let planes = self.parts.planes.as_slice();
        planes[0].width
    }

    /// The number of rows.
    pub fn height(&self) -> u32
        ensures value { result ≡ height self.now }
        ensures valid { IsCuttable self.now }
    {
        let planes = self.parts.planes.as_slice();
        planes[0].height
    }

    /// The tint of full ink, from 1 to 65,535.
    pub fn maxval(&self) -> u32
        ensures value { result ≡ maxval self.now }
        ensures valid { IsCuttable self.now }
    {
        let planes = self.parts.planes.as_slice();
        planes[0].maxval
    }

    /// The parts of the sheet.
    pub fn parts(&self) -> &PageParts
        ensures value { result.now ≡ self.now }
        ensures valid { IsCuttable self.now }
    {
        &self.parts
    }

    /// Takes the sheet apart again, without a copy.
    pub fn into_parts(self) -> PageParts
        ensures parts { result ≡ self }
        ensures valid { IsCuttable result }
    {
        self.parts
    }

    /// The number of plates.
    pub fn plates(&self) -> u32
        ensures value { result ≡ plates self.now }
        ensures valid { IsCuttable self.now }
    {
        self.parts.planes.len() as u32
    }

    /// The number of zones.
    pub fn zones(&self) -> u32
        ensures value { result ≡ length self.now.zones }
        ensures valid { IsCuttable self.now }
    {
        self.parts.zones.len() as u32
    }

    /// Where a window's lower left corner is.
    fn corner_of(&self, cut: &Cut) -> Corner
        requires cut { IsCut self.now cut.now }
        ensures right { result.right ≡ right_of self.now cut.now }
        ensures up { result.up ≡ up_of self.now cut.now }
        ensures few_right { result.right < 2 ^ 50 }
        ensures few_up { result.up < 2 ^ 50 }
    {
        let _valid = self.width();
        corner_of(self.parts.resolution, self.height(), cut)
    }

    /// The parts of a window of the sheet.
    fn parts_of(&self, alloc: Global, cut: &Cut) -> Result<PageParts, OutOfMemory>
        requires cut { IsCut self.now cut.now }
        ensures { IfOk result (λ parts. parts ≡ window self.now cut.now) }
    {
        let wide = self.width() as usize;
        let Corner { right, up } = self.corner_of(cut);
        Ok(PageParts {
            resolution: self.parts.resolution,
            planes: planes_of(alloc, self.parts.planes.as_slice(), wide, cut)?,
            inks: inks_of(alloc, self.parts.inks.as_slice())?,
            zones: zones_of(alloc, self.parts.zones.as_slice(), right, up)?,
        })
    }

    /// The window as a page. It fails only where memory runs out.
    pub fn window(&self, alloc: Global, cut: &Cut) -> Result<Page, OutOfMemory>
        requires cut { IsCut self.now cut.now }
        requires small { IsSmall self.now cut.now }
        ensures { IfOk result (λ page. page ≡ window self.now cut.now) }
    {
        let _valid = self.width();
        let parts = self.parts_of(alloc, cut)?;
        Ok(page_of(parts))
    }

    /// The window as a page, written over `page`, which has the sheet's form and the window's sides, as an earlier
    /// window of this sheet, or of another one of its form, has. It allocates nothing: the allocator is that of lists
    /// that stay empty.
    pub fn refill(&self, alloc: Global, cut: &Cut, page: Page) -> Page
        requires cut { IsCut self.now cut.now }
        requires small { IsSmall self.now cut.now }
        requires form { form_of page ≡ form_of self.now }
        requires wide { width page ≡ cut.now.width }
        requires tall { height page ≡ cut.now.height }
        ensures { result ≡ window self.now cut.now }
    {
        let _valid = self.width();
        page_of(self.put_parts(alloc, cut, page.into_parts()))
    }

    /// Writes the parts of a window over those of such a page.
    fn put_parts(&self, alloc: Global, cut: &Cut, parts: PageParts) -> PageParts
        requires cut { IsCut self.now cut.now }
        requires page { IsPage parts }
        requires form { form_of parts ≡ form_of self.now }
        requires wide { width parts ≡ cut.now.width }
        requires tall { height parts ≡ cut.now.height }
        ensures { result ≡ window self.now cut.now }
    {
        let wide = self.width() as usize;
        let Corner { right, up } = self.corner_of(cut);
        let mut parts = parts;
        parts.resolution = self.parts.resolution;
        let planes = self.parts.planes.as_slice();
        show_planes(alloc, planes, wide, cut, &mut parts.planes);
        move_zones(self.parts.zones.as_slice(), right, up, &mut parts.zones);
        parts
    }
}

/// Makes a page of parts that have no fault.
fn page_of(parts: PageParts) -> Page
    requires { IsPage parts }
    ensures { result ≡ parts }
{
    match Page::new(parts) {
        Ok(page) => page,
        Err(_) => unreachable!(),
    }
}
