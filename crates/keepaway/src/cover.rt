ghost use Rattle.std.specs.Prelude.{◌≡◌, ◌+◌, ◌*◌, ◌<◌, ◌≤◌, ℕ, IfOk, length, slice_index};
ghost use Rattle.page_model.specs.Limits.{scale};
ghost use Rattle.page_model.specs.Page.{height, width};
ghost use Rattle.page_model.specs.Zones.{zone_of};
ghost use Rattle.keepaway.specs.Keepaway.{level};
ghost use Rattle.keepaway.specs.Rows.{AreLevels, AreMarks, AreZones, CoverLists, HasRows, IsCover, mark};
ghost use Rattle.keepaway.specs.Workspaces.{IsCoverWorkspace};

use crate::levels::write_levels;
use crate::marks::write_marks;
use crate::rows::{put_row, row_of};
use lists::memory::vec_of;
use page_model::page::Page;
use page_model::parts::OutOfMemory;
use std::alloc::Global;
use std::marker::Model;
use zone_map::{SpanBuf, zone_row};

/// The zone of each pixel of a page, and whether it is covered and open.
#[derive(Drop)]
pub struct Cover {
    pub(crate) width: u32,
    pub(crate) height: u32,
    pub(crate) zones: Vec<u8>,
    pub(crate) marks: Vec<u8>,
}

impl Model for Cover {
    ghost use Rattle.keepaway.specs.Rows.{CoverLists};

    ghost Value = { CoverLists };

    ghost view = { λ c. record {
      wide = c.width;
      tall = c.height;
      zones = c.zones.items;
      marks = c.marks.items;
    } };
}

impl Cover {
    /// For each pixel 0 where it is not covered, 2 where it is and is open, else 1.
    pub fn marks(&self) -> &[u8]
        ensures { result.now ≡ self.now.marks }
    {
        self.marks.as_slice()
    }
}

/// Writes the zone of each pixel.
fn fill_zones(page: &Page, spans: &mut SpanBuf, row: &mut [u8], zones: &mut [u8])
    requires spans { spans.old.wide ≡ width page.now }
    requires row { length row.old ≡ width page.now }
    requires zones { length zones.old ≡ width page.now * height page.now }
    ensures zones { AreZones page.now zones.new }
    ensures spans { spans.new.wide ≡ spans.old.wide }
{
    let height = page.height();
    for y in 0..height {
        zone_row(page, y, row, spans);
        put_row(zones, height as usize, y as usize, row);
    }
}

/// Writes how black each pixel is.
fn fill_levels(page: &Page, limit: u32, zones: &[u8], row: &mut [u8], levels: &mut [u8])
    requires limit { limit ≤ scale }
    requires zones { AreZones page.now zones.now }
    requires row { length row.old ≡ width page.now }
    requires levels { length levels.old ≡ width page.now * height page.now }
    ensures { AreLevels page.now limit levels.new }
{
    let (width, height) = (page.width() as usize, page.height());
    for y in 0..height {
        write_levels(page, limit, row_of(zones, width, y as usize), y, row);
        put_row(levels, height as usize, y as usize, row);
    }
}

/// Writes the mark of each pixel.
fn fill_marks(
    page: &Page,
    limit: u32,
    zones: &[u8],
    levels: &[u8],
    row: &mut [u8],
    marks: &mut [u8],
)
    requires zones { AreZones page.now zones.now }
    requires levels { AreLevels page.now limit levels.now }
    requires row { length row.old ≡ width page.now }
    requires marks { length marks.old ≡ width page.now * height page.now }
    ensures { AreMarks page.now limit marks.new }
{
    let (width, height) = (page.width() as usize, page.height());
    for y in 0..height {
        write_marks(
            page,
            limit,
            row_of(zones, width, y as usize),
            levels,
            y,
            row,
        );
        put_row(marks, height as usize, y as usize, row);
    }
}

/// The buffers that the covers of pages of one size are found in. They are allocated once, and hold the cover that was
/// found last.
#[derive(Drop)]
pub struct CoverWorkspace {
    pub spans: SpanBuf,
    /// A buffer for a row.
    pub row: Vec<u8>,
    /// How black each pixel is.
    pub levels: Vec<u8>,
    pub cover: Cover,
}

impl CoverWorkspace {
    /// Allocates the buffers for pages of this page's size. No cover is found yet.
    pub fn new(alloc: Global, page: &Page) -> Result<CoverWorkspace, OutOfMemory>
        ensures { IfOk result (IsCoverWorkspace (width page.now) (height page.now)) }
    {
        let (width, height) = (page.width(), page.height());
        let samples = width as usize * height as usize;
        Ok(CoverWorkspace {
            spans: SpanBuf::new(alloc, width)?,
            row: vec_of(alloc, 0u8, width as usize)?,
            levels: vec_of(alloc, 0u8, samples)?,
            cover: Cover {
                width,
                height,
                zones: vec_of(alloc, 0u8, samples)?,
                marks: vec_of(alloc, 0u8, samples)?,
            },
        })
    }
}

/// Finds the cover of a page of that size: where it is black by this limit, in ten-thousandths of full ink. It replaces
/// the cover that was found before. It allocates nothing.
pub fn cover_in(page: &Page, limit: u32, workspace: &mut CoverWorkspace)
    requires limit { limit ≤ scale }
    requires workspace { IsCoverWorkspace (width page.now) (height page.now) workspace.old }
    ensures workspace { IsCoverWorkspace (width page.now) (height page.now) workspace.new }
    ensures cover { IsCover page.now limit workspace.new.cover }
{
    let CoverWorkspace {
        spans,
        row,
        levels,
        cover,
    } = workspace;
    fill_zones(page, spans, row.as_mut_slice(), cover.zones.as_mut_slice());
    fill_levels(
        page,
        limit,
        cover.zones.as_slice(),
        row.as_mut_slice(),
        levels.as_mut_slice(),
    );
    fill_marks(
        page,
        limit,
        cover.zones.as_slice(),
        levels.as_slice(),
        row.as_mut_slice(),
        cover.marks.as_mut_slice(),
    );
}

/// Finds the cover of a page in buffers of its own. It fails only where memory runs out.
pub fn cover_of(alloc: Global, page: &Page, limit: u32) -> Result<Cover, OutOfMemory>
    requires { limit ≤ scale }
    ensures { IfOk result (λ cover. IsCover page.now limit cover) }
{
    let mut workspace = CoverWorkspace::new(alloc, page)?;
    cover_in(page, limit, &mut workspace);
    Ok(workspace.cover)
}
