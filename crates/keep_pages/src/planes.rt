ghost use Rattle.std.specs.Prelude.{◌≡◌, ◌<◌, ◌*◌, All, IfOk, length};
ghost use Rattle.page_model.specs.Page.{height, plates, width};
ghost use Rattle.keepaway.specs.Rows.{IsCover, Reaches as ReachesUnderBlack};
ghost use Rattle.underprint.specs.Lists.{AreMarks, Reaches as ReachesUnderColour};
ghost use Rattle.keep_pages.specs.KeptPages.{kept_plane, kept_planes, kept_tints};
ghost use Rattle.keep_pages.specs.declared.uses.KeepUse.TheVariants.{UnderBlack, UnderColour};

use keepaway::{Cover, RichBlack};
use lists::list::List;
use lists::memory::{push, vec_of};
use page_model::page::Page;
use page_model::parts::{OutOfMemory, Plane, PlaneList};
use std::alloc::Global;
use underprint::WhiteList;

/// Writes the tints of plate c, drawn back under black, row by row. `row` is a buffer for a row. It allocates nothing.
pub fn fill_under_black(
    page: &Page,
    rich: &RichBlack,
    cover: &Cover,
    c: u32,
    row: &mut [u16],
    tints: &mut [u16],
)
    requires reach { ReachesUnderBlack page.now rich.now }
    requires cover { IsCover page.now rich.now.limit cover.now }
    requires plate { c < plates page.now }
    requires row { length row.old ≡ width page.now }
    requires tints { length tints.old ≡ width page.now * height page.now }
    ensures { tints.new ≡ kept_tints page.now (UnderBlack rich.now) c }
{
    keepaway::draw_plate(page, rich, cover, c, row, tints);
}

/// Writes the tints of plate c, drawn back under colour, row by row. `row` is a buffer for a row. It allocates nothing.
pub fn fill_under_colour(
    page: &Page,
    whites: &WhiteList,
    marks: &[u8],
    c: u32,
    row: &mut [u16],
    tints: &mut [u16],
)
    requires reach { All (λ white. ReachesUnderColour page.now white.width) whites.now }
    requires marks { AreMarks page.now whites.now marks.now }
    requires plate { c < plates page.now }
    requires row { length row.old ≡ width page.now }
    requires tints { length tints.old ≡ width page.now * height page.now }
    ensures { tints.new ≡ kept_tints page.now (UnderColour whites.now) c }
{
    underprint::draw_plate(page, whites, marks, c, row, tints);
}

// Plate c, drawn back under black.
fn plane_under_black(
    alloc: Global,
    page: &Page,
    rich: &RichBlack,
    cover: &Cover,
    c: u32,
) -> Result<Plane, OutOfMemory>
    requires reach { ReachesUnderBlack page.now rich.now }
    requires cover { IsCover page.now rich.now.limit cover.now }
    requires plate { c < plates page.now }
    ensures { IfOk result (λ plane. plane ≡ kept_plane page.now (UnderBlack rich.now) c) }
{
    let (width, height, maxval) = (page.width(), page.height(), page.maxval());
    let mut row = vec_of(alloc, 0u16, width as usize)?;
    let mut tints = vec_of(alloc, 0u16, width as usize * height as usize)?;
    fill_under_black(
        page,
        rich,
        cover,
        c,
        row.as_mut_slice(),
        tints.as_mut_slice(),
    );
    Ok(Plane {
        width,
        height,
        maxval,
        tints: List::from_vec(tints),
    })
}

// Plate c, drawn back under colour.
fn plane_under_colour(
    alloc: Global,
    page: &Page,
    whites: &WhiteList,
    marks: &[u8],
    c: u32,
) -> Result<Plane, OutOfMemory>
    requires reach { All (λ white. ReachesUnderColour page.now white.width) whites.now }
    requires marks { AreMarks page.now whites.now marks.now }
    requires plate { c < plates page.now }
    ensures { IfOk result (λ plane. plane ≡ kept_plane page.now (UnderColour whites.now) c) }
{
    let (width, height, maxval) = (page.width(), page.height(), page.maxval());
    let mut row = vec_of(alloc, 0u16, width as usize)?;
    let mut tints = vec_of(alloc, 0u16, width as usize * height as usize)?;
    fill_under_colour(
        page,
        whites,
        marks,
        c,
        row.as_mut_slice(),
        tints.as_mut_slice(),
    );
    Ok(Plane {
        width,
        height,
        maxval,
        tints: List::from_vec(tints),
    })
}

/// All plates, drawn back under black.
#[tactic(auto, unfolding(crate::specs::KeptPages::kept_planes))]
pub(crate) fn planes_under_black(
    alloc: Global,
    page: &Page,
    rich: &RichBlack,
    cover: &Cover,
) -> Result<PlaneList, OutOfMemory>
    requires reach { ReachesUnderBlack page.now rich.now }
    requires cover { IsCover page.now rich.now.limit cover.now }
    ensures { IfOk result (λ planes. planes ≡ kept_planes page.now (UnderBlack rich.now)) }
{
    let mut planes = List::new(alloc);
    for c in 0..page.plates() {
        let plane = plane_under_black(alloc, page, rich, cover, c)?;
        push(&mut planes, plane)?;
    }
    Ok(planes)
}

/// All plates, drawn back under colour.
#[tactic(auto, unfolding(crate::specs::KeptPages::kept_planes))]
pub(crate) fn planes_under_colour(
    alloc: Global,
    page: &Page,
    whites: &WhiteList,
    marks: &[u8],
) -> Result<PlaneList, OutOfMemory>
    requires reach { All (λ white. ReachesUnderColour page.now white.width) whites.now }
    requires marks { AreMarks page.now whites.now marks.now }
    ensures { IfOk result (λ planes. planes ≡ kept_planes page.now (UnderColour whites.now)) }
{
    let mut planes = List::new(alloc);
    for c in 0..page.plates() {
        let plane = plane_under_colour(alloc, page, whites, marks, c)?;
        push(&mut planes, plane)?;
    }
    Ok(planes)
}
