// Which pixels are covered.

ghost use Rattle.std.specs.Prelude.{◌≡◌, ◌+◌, ◌*◌, ◌<◌, ◌≤◌, ◌==◌, ◌&&◌, not, ℕ, IfOk, length, nat_le, slice_index};
ghost use Rattle.lists.specs.Words.{any_below, gap};
ghost use Rattle.page_model.specs.Page.{height, width, InPage};
ghost use Rattle.keepaway.specs.Rows.{IsRow};
ghost use Rattle.underprint.specs.Lists.{AreColours, AreMarks, colour_level, mark};
ghost use Rattle.underprint.specs.Underprint.{covered, touches_outline as touches_spec};
ghost use Rattle.underprint.specs.Workspaces.{IsCoverWorkspace};

use crate::colour::write_colours;
use crate::parts::WhiteList;
use keepaway::rows::{put_row, row_of};
use lists::memory::vec_of;
use page_model::page::Page;
use page_model::parts::{At, OutOfMemory};
use std::alloc::Global;

/// Whether a row has a pixel without colour in column x or beside it; the pixel in column x itself does not count where
/// it is left out.
fn outline_in_row(row: &[u8], x: usize, left_out: bool) -> bool
    requires { x < length row.now }
    ensures { result ≡ any_below (λ j. nat_le (gap x j) 1
        && (not (left_out && (j == x)) && (slice_index row.now j == 0))) (length row.now) }
{
    let length = row.len();
    let last = if x + 1 < length { x + 2 } else { length };
    for j in x.saturating_sub(1)..last {
        if !(left_out && j == x) && row[j] == 0 {
            return true;
        }
    }
    false
}

/// Whether a pixel without colour touches p.
fn touches_outline(page: &Page, whites: &WhiteList, levels: &[u8], p: At) -> bool
    requires levels { AreColours page.now whites.now levels.now }
    requires pixel { InPage page.now p }
    ensures { result ≡ touches_spec page.now whites.now p }
{
    let (width, height) = (page.width() as usize, page.height());
    for y in p.y.saturating_sub(1)..(p.y + 2).min(height) {
        let row = row_of(levels, width, y as usize);
        if outline_in_row(row, p.x as usize, y == p.y) {
            return true;
        }
    }
    false
}

/// The mark of a pixel of this level.
#[tactic(auto, unfolding(crate::specs::Underprint::covered))]
fn mark_at(page: &Page, whites: &WhiteList, levels: &[u8], p: At, here: u8) -> u8
    requires levels { AreColours page.now whites.now levels.now }
    requires pixel { InPage page.now p }
    requires here { here ≡ colour_level page.now whites.now p }
    ensures { result ≡ mark page.now whites.now p }
{
    if here == 1 || !touches_outline(page, whites, levels, p) {
        2
    } else {
        0
    }
}

/// Writes the marks of row y, by the levels of all rows.
fn write_marks(page: &Page, whites: &WhiteList, levels: &[u8], y: u32, marks: &mut [u8])
    requires row { y < height page.now }
    requires levels { AreColours page.now whites.now levels.now }
    requires marks { length marks.old ≡ width page.now }
    ensures { IsRow page.now (mark page.now whites.now) y marks.new }
{
    let row = row_of(levels, page.width() as usize, y as usize);
    for x in 0..marks.len() {
        let p = At { x: x as u32, y };
        marks[x] = mark_at(page, whites, levels, p, row[x]);
    }
}

/// Writes whether each pixel has colour. `sums` and `row` are buffers for a row.
fn fill_colours(
    page: &Page,
    whites: &WhiteList,
    sums: &mut [u32],
    row: &mut [u8],
    levels: &mut [u8],
)
    requires sums { length sums.old ≡ width page.now }
    requires row { length row.old ≡ width page.now }
    requires levels { length levels.old ≡ width page.now * height page.now }
    ensures { AreColours page.now whites.now levels.new }
{
    let height = page.height();
    for y in 0..height {
        write_colours(page, whites, y, sums, row);
        put_row(levels, height as usize, y as usize, row);
    }
}

/// Writes the mark of each pixel. `row` is a buffer for a row.
fn fill_marks(page: &Page, whites: &WhiteList, levels: &[u8], row: &mut [u8], marks: &mut [u8])
    requires levels { AreColours page.now whites.now levels.now }
    requires row { length row.old ≡ width page.now }
    requires marks { length marks.old ≡ width page.now * height page.now }
    ensures { AreMarks page.now whites.now marks.new }
{
    let height = page.height();
    for y in 0..height {
        write_marks(page, whites, levels, y, row);
        put_row(marks, height as usize, y as usize, row);
    }
}

/// The buffers that the covers of pages of one size are found in. They are allocated once, and hold the cover that was
/// found last.
#[derive(Drop)]
pub struct CoverWorkspace {
    /// The sums of the tints of a row.
    pub sums: Vec<u32>,
    /// A buffer for a row.
    pub row: Vec<u8>,
    /// Whether each pixel has colour.
    pub levels: Vec<u8>,
    /// For each pixel 2 where it is covered, else 0.
    pub marks: Vec<u8>,
}

impl CoverWorkspace {
    /// Allocates the buffers for pages of this page's size. No cover is found yet.
    pub fn new(alloc: Global, page: &Page) -> Result<CoverWorkspace, OutOfMemory>
        ensures { IfOk result (IsCoverWorkspace (width page.now) (height page.now)) }
    {
        let (width, height) = (page.width() as usize, page.height() as usize);
        Ok(CoverWorkspace {
            sums: vec_of(alloc, 0u32, width)?,
            row: vec_of(alloc, 0u8, width)?,
            levels: vec_of(alloc, 0u8, width * height)?,
            marks: vec_of(alloc, 0u8, width * height)?,
        })
    }
}

/// Finds the cover of a page of that size under these underprints. It replaces the cover that was found before. It
/// allocates nothing.
pub fn cover_in(page: &Page, whites: &WhiteList, workspace: &mut CoverWorkspace)
    requires workspace { IsCoverWorkspace (width page.now) (height page.now) workspace.old }
    ensures workspace { IsCoverWorkspace (width page.now) (height page.now) workspace.new }
    ensures marks { AreMarks page.now whites.now workspace.new.marks.items }
{
    let CoverWorkspace {
        sums,
        row,
        levels,
        marks,
    } = workspace;
    fill_colours(
        page,
        whites,
        sums.as_mut_slice(),
        row.as_mut_slice(),
        levels.as_mut_slice(),
    );
    fill_marks(
        page,
        whites,
        levels.as_slice(),
        row.as_mut_slice(),
        marks.as_mut_slice(),
    );
}

/// Finds the cover of a page under these underprints in buffers of its own: for each pixel 2 where it is covered, else
/// 0. It fails only where memory runs out.
pub fn cover_of(alloc: Global, page: &Page, whites: &WhiteList) -> Result<Vec<u8>, OutOfMemory>
    ensures { IfOk result (λ marks. AreMarks page.now whites.now marks.items) }
{
    let mut workspace = CoverWorkspace::new(alloc, page)?;
    cover_in(page, whites, &mut workspace);
    Ok(workspace.marks)
}
