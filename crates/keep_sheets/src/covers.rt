// The buffers that the cover of a window is found in, and the new tints by the cover.

ghost use Rattle.std.specs.Prelude.{◌≡◌, ◌<◌, ◌*◌, All, IfOk, length};
ghost use Rattle.page_model.specs.Page.{height, plates, width};
ghost use Rattle.keepaway.specs.Rows.{Reaches as ReachesUnderBlack};
ghost use Rattle.underprint.specs.Lists.{Reaches as ReachesUnderColour};
ghost use Rattle.keep_pages.specs.KeptPages.{Reaches, kept_tints};
ghost use Rattle.keep_pages.specs.declared.uses.KeepUse.TheVariants.{UnderBlack, UnderColour};
ghost use Rattle.keep_sheets.specs.KeepWorkspaces.{IsCoverFor, IsCoverOf, marks_in};

use keep_pages::{KeepUse, fill_under_black, fill_under_colour};
use keepaway::RichBlack;
use page_model::page::Page;
use page_model::parts::OutOfMemory;
use std::alloc::Global;
use underprint::WhiteList;

/// The buffers that covers are found in, by black or by colour.
#[derive(Drop)]
pub enum CoverBuffers {
    Black(keepaway::CoverWorkspace),
    Colour(underprint::CoverWorkspace),
}

impl CoverBuffers {
    /// Allocates the buffers for the covers of pages of this page's size.
    pub fn new(alloc: Global, page: &Page, used: &KeepUse) -> Result<CoverBuffers, OutOfMemory>
        ensures { IfOk result (IsCoverFor (width page.now) (height page.now) used.now) }
    {
        match used {
            KeepUse::UnderBlack(_) => {
                let buffers = keepaway::CoverWorkspace::new(alloc, page)?;
                Ok(CoverBuffers::Black(buffers))
            }
            KeepUse::UnderColour(_) => {
                let buffers = underprint::CoverWorkspace::new(alloc, page)?;
                Ok(CoverBuffers::Colour(buffers))
            }
        }
    }

    /// For each pixel 0 where it is not covered.
    pub fn marks(&self) -> &[u8]
        ensures { result.now ≡ marks_in self.now }
    {
        match self {
            CoverBuffers::Black(buffers) => buffers.cover.marks(),
            CoverBuffers::Colour(buffers) => buffers.marks.as_slice(),
        }
    }
}

/// Finds the cover of a page by black.
fn find_black(page: &Page, rich: &RichBlack, cover: &mut CoverBuffers)
    requires { IsCoverFor (width page.now) (height page.now) (UnderBlack rich.now) cover.old }
    ensures buffers { IsCoverFor (width page.now) (height page.now) (UnderBlack rich.now) cover.new }
    ensures cover { IsCoverOf page.now (UnderBlack rich.now) cover.new }
{
    if let CoverBuffers::Black(buffers) = cover {
        keepaway::cover_in(page, rich.limit, buffers);
    }
}

/// Finds the cover of a page by colour.
fn find_colour(page: &Page, whites: &WhiteList, cover: &mut CoverBuffers)
    requires { IsCoverFor (width page.now) (height page.now) (UnderColour whites.now) cover.old }
    ensures buffers { IsCoverFor (width page.now) (height page.now) (UnderColour whites.now) cover.new }
    ensures cover { IsCoverOf page.now (UnderColour whites.now) cover.new }
{
    if let CoverBuffers::Colour(buffers) = cover {
        underprint::cover_in(page, whites, buffers);
    }
}

/// Finds the cover of a page. It replaces the cover that was found before. It allocates nothing.
pub(crate) fn find_cover(page: &Page, used: &KeepUse, cover: &mut CoverBuffers)
    requires { IsCoverFor (width page.now) (height page.now) used.now cover.old }
    ensures buffers { IsCoverFor (width page.now) (height page.now) used.now cover.new }
    ensures cover { IsCoverOf page.now used.now cover.new }
{
    match used {
        KeepUse::UnderBlack(rich) => find_black(page, rich, cover),
        KeepUse::UnderColour(whites) => find_colour(page, whites, cover),
    }
}

/// Writes the tints of plate c, drawn back under black.
fn fill_black(
    page: &Page,
    rich: &RichBlack,
    cover: &CoverBuffers,
    c: u32,
    row: &mut [u16],
    tints: &mut [u16],
)
    requires reach { ReachesUnderBlack page.now rich.now }
    requires cover { IsCoverOf page.now (UnderBlack rich.now) cover.now }
    requires plate { c < plates page.now }
    requires row { length row.old ≡ width page.now }
    requires tints { length tints.old ≡ width page.now * height page.now }
    ensures { tints.new ≡ kept_tints page.now (UnderBlack rich.now) c }
{
    if let CoverBuffers::Black(buffers) = cover {
        fill_under_black(page, rich, &buffers.cover, c, row, tints);
    }
}

/// Writes the tints of plate c, drawn back under colour.
fn fill_colour(
    page: &Page,
    whites: &WhiteList,
    cover: &CoverBuffers,
    c: u32,
    row: &mut [u16],
    tints: &mut [u16],
)
    requires reach { All (λ white. ReachesUnderColour page.now white.width) whites.now }
    requires cover { IsCoverOf page.now (UnderColour whites.now) cover.now }
    requires plate { c < plates page.now }
    requires row { length row.old ≡ width page.now }
    requires tints { length tints.old ≡ width page.now * height page.now }
    ensures { tints.new ≡ kept_tints page.now (UnderColour whites.now) c }
{
    if let CoverBuffers::Colour(buffers) = cover {
        fill_under_colour(page, whites, buffers.marks.as_slice(), c, row, tints);
    }
}

/// Writes the new tints of plate c by the page's cover. `row` is a buffer for a row. It allocates nothing.
pub(crate) fn fill_tints(
    page: &Page,
    used: &KeepUse,
    cover: &CoverBuffers,
    c: u32,
    row: &mut [u16],
    tints: &mut [u16],
)
    requires reach { Reaches page.now used.now }
    requires cover { IsCoverOf page.now used.now cover.now }
    requires plate { c < plates page.now }
    requires row { length row.old ≡ width page.now }
    requires tints { length tints.old ≡ width page.now * height page.now }
    ensures { tints.new ≡ kept_tints page.now used.now c }
{
    match used {
        KeepUse::UnderBlack(rich) => fill_black(page, rich, cover, c, row, tints),
        KeepUse::UnderColour(whites) => fill_colour(page, whites, cover, c, row, tints),
    }
}
