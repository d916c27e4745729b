// The buffers that the windows of a sheet are drawn back in. They are allocated once.

ghost use Rattle.std.specs.Prelude.{◌≡◌, ◌<◌, ◌*◌, ℕ, IfOk, length};
ghost use Rattle.page_model.specs.Page.{height, plates, width};
ghost use Rattle.page_model.specs.Planes.{plane_at};
ghost use Rattle.page_tally.specs.Shapes.{shape_of};
ghost use Rattle.keep_pages.specs.KeptPages.{Reaches, kept_plane, kept_planes};
ghost use Rattle.keep_sheets.specs.KeepWorkspaces.{IsCoverOf, IsWorkspaceFor};

use crate::covers::{CoverBuffers, fill_tints, find_cover};
use keep_pages::KeepUse;
use lists::list::List;
use lists::memory::{push, vec_of};
use page_model::page::Page;
use page_model::parts::{OutOfMemory, Plane, PlaneList};
use std::alloc::Global;

/// The buffers that pages of one shape are drawn back in. They are allocated once, and hold the cover and the new
/// planes of the page that was drawn back last.
#[derive(Drop)]
pub struct KeepWorkspace {
    /// The marks, and what they are found by.
    pub cover: CoverBuffers,
    /// A buffer for a row.
    pub row: Vec<u16>,
    pub planes: PlaneList,
}

/// A plane with a tint for each pixel of a page.
fn plane_for(alloc: Global, page: &Page) -> Result<Plane, OutOfMemory>
    ensures { IfOk result (λ plane. length plane.tints ≡ width page.now * height page.now) }
{
    let (width, height, maxval) = (page.width(), page.height(), page.maxval());
    let tints = vec_of(alloc, 0u16, width as usize * height as usize)?;
    Ok(Plane {
        width,
        height,
        maxval,
        tints: List::from_vec(tints),
    })
}

/// Such planes for all plates.
fn planes_for(alloc: Global, page: &Page) -> Result<PlaneList, OutOfMemory>
    ensures count { IfOk result (λ planes. length planes ≡ plates page.now) }
    ensures tints { IfOk result (λ planes. (c : ℕ) → c < plates page.now
        → length (plane_at planes c).tints ≡ width page.now * height page.now) }
{
    let mut planes = List::new(alloc);
    for _c in 0..page.plates() {
        push(&mut planes, plane_for(alloc, page)?)?;
    }
    Ok(planes)
}

/// Writes plate c, drawn back, to a plane with as many tints. It allocates nothing: the allocator is that of a list
/// that stays empty.
fn put_plane(
    alloc: Global,
    page: &Page,
    used: &KeepUse,
    cover: &CoverBuffers,
    c: u32,
    row: &mut [u16],
    plane: &mut Plane,
)
    requires reach { Reaches page.now used.now }
    requires cover { IsCoverOf page.now used.now cover.now }
    requires plate { c < plates page.now }
    requires row { length row.old ≡ width page.now }
    requires long { length plane.old.tints ≡ width page.now * height page.now }
    ensures { plane.new ≡ kept_plane page.now used.now c }
{
    let mut tints = std::mem::replace(&mut plane.tints, List::new(alloc)).into_vec();
    fill_tints(page, used, cover, c, row, tints.as_mut_slice());
    plane.width = page.width();
    plane.height = page.height();
    plane.maxval = page.maxval();
    plane.tints = List::from_vec(tints);
}

/// Writes all plates, drawn back, to planes with as many tints.
fn put_planes(
    alloc: Global,
    page: &Page,
    used: &KeepUse,
    cover: &CoverBuffers,
    row: &mut [u16],
    planes: &mut PlaneList,
)
    requires reach { Reaches page.now used.now }
    requires cover { IsCoverOf page.now used.now cover.now }
    requires row { length row.old ≡ width page.now }
    requires count { length planes.old ≡ plates page.now }
    requires long { (c : ℕ) → c < plates page.now
        → length (plane_at planes.old c).tints ≡ width page.now * height page.now }
    ensures { planes.new ≡ kept_planes page.now used.now }
{
    for c in 0..page.plates() {
        put_plane(
            alloc,
            page,
            used,
            cover,
            c,
            row,
            planes.item_mut(c as usize),
        );
    }
}

impl KeepWorkspace {
    /// Allocates the buffers for pages of this page's shape. Nothing is drawn back yet.
    pub fn new(alloc: Global, page: &Page, used: &KeepUse) -> Result<KeepWorkspace, OutOfMemory>
        ensures { IfOk result (IsWorkspaceFor (shape_of page.now) used.now) }
    {
        Ok(KeepWorkspace {
            cover: CoverBuffers::new(alloc, page, used)?,
            row: vec_of(alloc, 0u16, page.width() as usize)?,
            planes: planes_for(alloc, page)?,
        })
    }

    /// Draws a page of this shape back; its cover and its new planes replace those of the page before. It allocates
    /// nothing.
    pub fn keep(&mut self, page: &Page, used: &KeepUse)
        requires reach { Reaches page.now used.now }
        requires workspace { IsWorkspaceFor (shape_of page.now) used.now self.old }
        ensures workspace { IsWorkspaceFor (shape_of page.now) used.now self.new }
        ensures cover { IsCoverOf page.now used.now self.new.cover }
        ensures planes { self.new.planes ≡ kept_planes page.now used.now }
    {
        let KeepWorkspace { cover, row, planes } = self;
        let alloc = *row.allocator();
        find_cover(page, used, cover);
        put_planes(alloc, page, used, cover, row.as_mut_slice(), planes);
    }
}
