ghost use Rattle.std.specs.Prelude.{◌≡◌, ◌<◌, ℕ, All, IfOk, OnOk, length, slice_index, vec_len};
ghost use Rattle.page_model.specs.Page.{plates};
ghost use Rattle.page_model.specs.Planes.{tints_of};
ghost use Rattle.keepaway.specs.Rows.{IsCover, Reaches as ReachesUnderBlack};
ghost use Rattle.underprint.specs.Lists.{AreMarks, Reaches as ReachesUnderColour};
ghost use Rattle.keep_pages.specs.KeptPages.{changed_count, covered_count, keep_report, kept_planes, Reaches};
ghost use Rattle.keep_pages.specs.declared.uses.KeepUse.TheVariants.{UnderBlack, UnderColour};

use crate::counting::{count_changed, count_covered};
use crate::laws::kept_planes_law;
use crate::planes::{planes_under_black, planes_under_colour};
use crate::report::report_with;
use crate::uses::KeepUse;
use keepaway::{Cover, RichBlack};
use lists::memory::no_counts;
use page_model::page::Page;
use page_model::parts::{Name, OutOfMemory, PlaneList};
use std::alloc::Global;
use underprint::WhiteList;

/// A page afterwards, and its report.
#[derive(Drop)]
pub struct Kept {
    pub planes: PlaneList,
    pub report: Name,
}

// A page afterwards, and how many of its pixels are covered.
#[derive(Drop)]
struct DrawnPage {
    planes: PlaneList,
    covered: u64,
}

// The tints of plane c.
fn tints_at(planes: &PlaneList, c: u32) -> &[u16]
    requires { c < length planes.now }
    ensures { result.now ≡ tints_of planes.now c }
{
    planes.as_slice()[c as usize].tints.as_slice()
}

// How many pixels of plate c changed.
fn count_plate(page: &Page, used: &KeepUse, planes: &PlaneList, c: u32) -> u64
    requires planes { planes.now ≡ kept_planes page.now used.now }
    requires plate { c < plates page.now }
    ensures { result ≡ changed_count page.now used.now c }
{
    let _valid = page.plates();
    kept_planes_law(page, used);
    count_changed(tints_at(page.planes(), c), tints_at(planes, c))
}

// How many pixels of each plate changed.
fn count_plates(page: &Page, used: &KeepUse, planes: &PlaneList, counts: &mut [u64])
    requires planes { planes.now ≡ kept_planes page.now used.now }
    requires counts { length counts.old ≡ plates page.now }
    ensures { (c : ℕ) → c < plates page.now
        → slice_index counts.new c ≡ changed_count page.now used.now c }
{
    for c in 0..page.plates() {
        counts[c as usize] = count_plate(page, used, planes, c);
    }
}

// The number of changed pixels of each plate.
fn counts_of(
    alloc: Global,
    page: &Page,
    used: &KeepUse,
    planes: &PlaneList,
) -> Result<Vec<u64>, OutOfMemory>
    requires { planes.now ≡ kept_planes page.now used.now }
    ensures long { IfOk result (λ counts. vec_len counts ≡ plates page.now) }
    ensures each { IfOk result (λ counts. (c : ℕ) → c < plates page.now
        → slice_index counts.items c ≡ changed_count page.now used.now c) }
{
    let mut counts = no_counts(alloc, page.plates() as usize)?;
    count_plates(page, used, planes, counts.as_mut_slice());
    Ok(counts)
}

// How many pixels are covered by black.
fn covered_by_black(page: &Page, rich: &RichBlack, cover: &Cover) -> u64
    requires { IsCover page.now rich.now.limit cover.now }
    ensures { result ≡ covered_count page.now (UnderBlack rich.now) }
{
    let _valid = page.plates();
    count_covered(cover.marks())
}

// How many pixels are covered by colour.
fn covered_by_colour(page: &Page, whites: &WhiteList, marks: &[u8]) -> u64
    requires { AreMarks page.now whites.now marks.now }
    ensures { result ≡ covered_count page.now (UnderColour whites.now) }
{
    let _valid = page.plates();
    count_covered(marks)
}

// Draws inks back under black.
fn draw_under_black(alloc: Global, page: &Page, rich: &RichBlack) -> Result<DrawnPage, OutOfMemory>
    requires { ReachesUnderBlack page.now rich.now }
    ensures planes { IfOk result (λ drawn. drawn.planes
        ≡ kept_planes page.now (UnderBlack rich.now)) }
    ensures covered { IfOk result (λ drawn. drawn.covered
        ≡ covered_count page.now (UnderBlack rich.now)) }
{
    let cover = keepaway::cover_of(alloc, page, rich.limit)?;
    let planes = planes_under_black(alloc, page, rich, &cover)?;
    let covered = covered_by_black(page, rich, &cover);
    Ok(DrawnPage { planes, covered })
}

// Draws whites back under colour.
fn draw_under_colour(
    alloc: Global,
    page: &Page,
    whites: &WhiteList,
) -> Result<DrawnPage, OutOfMemory>
    requires { All (λ white. ReachesUnderColour page.now white.width) whites.now }
    ensures planes { IfOk result (λ drawn. drawn.planes
        ≡ kept_planes page.now (UnderColour whites.now)) }
    ensures covered { IfOk result (λ drawn. drawn.covered
        ≡ covered_count page.now (UnderColour whites.now)) }
{
    let marks = underprint::cover_of(alloc, page, whites)?;
    let planes = planes_under_colour(alloc, page, whites, marks.as_slice())?;
    let covered = covered_by_colour(page, whites, marks.as_slice());
    Ok(DrawnPage { planes, covered })
}

// Draws back what is asked for.
fn draw_page(alloc: Global, page: &Page, used: &KeepUse) -> Result<DrawnPage, OutOfMemory>
    requires { Reaches page.now used.now }
    ensures planes { IfOk result (λ drawn. drawn.planes ≡ kept_planes page.now used.now) }
    ensures covered { IfOk result (λ drawn. drawn.covered ≡ covered_count page.now used.now) }
{
    match used {
        KeepUse::UnderBlack(rich) => draw_under_black(alloc, page, rich),
        KeepUse::UnderColour(whites) => draw_under_colour(alloc, page, whites),
    }
}

/// Draws the inks of a page back under black, or its whites under colour, and makes the report. It fails only where
/// memory runs out.
pub fn keep_page(alloc: Global, page: &Page, used: &KeepUse) -> Result<Kept, OutOfMemory>
    requires { Reaches page.now used.now }
    ensures planes { IfOk result (λ kept. kept.planes ≡ kept_planes page.now used.now) }
    ensures report { IfOk result (λ kept. kept.report ≡ keep_report page.now used.now) }
{
    let DrawnPage { planes, covered } = draw_page(alloc, page, used)?;
    let counts = counts_of(alloc, page, used, &planes)?;
    let report = report_with(alloc, page, used, covered, counts.as_slice())?;
    Ok(Kept { planes, report })
}
