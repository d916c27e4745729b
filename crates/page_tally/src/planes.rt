// The planes of the page: copies of them, into which the new tints of rows are written.

ghost use Rattle.std.specs.Prelude.{◌≡◌, ◌<◌, ◌≤◌, ◌+◌, ◌*◌, ℕ, IfOk, length};
ghost use Rattle.lists.specs.Words.{count_below};
ghost use Rattle.page_model.specs.Counts.{plate_changes};
ghost use Rattle.page_model.specs.Page.{height, plates, samples, width};
ghost use Rattle.page_model.specs.Planes.{plane_at};
ghost use Rattle.page_tally.specs.Standing.{AreTrappedTo, AreTrapping, IsNewRow, IsPlateRow, IsTintRow, IsTrappedTo};

use crate::blocks::{BLOCK, are_same, part_of};
use crate::changes::{differences_by_blocks, plate_row};
use lists::list::List;
use lists::memory::push;
use page_model::page::Page;
use page_model::parts::{OutOfMemory, Plane, PlaneList};
use row_values::tints_of_row;
use std::alloc::Global;

/// A copy of plate c.
fn copy_of(alloc: Global, page: &Page, c: u32) -> Result<Plane, OutOfMemory>
    requires plate { c < plates page.now }
    ensures { IfOk result (λ plane. IsTrappedTo page.now c 0 plane) }
{
    let planes = page.planes().as_slice();
    match Vec::from_slice(alloc, planes[c as usize].tints.as_slice()) {
        Ok(items) => Ok(Plane {
            width: page.width(),
            height: page.height(),
            maxval: page.maxval(),
            tints: List::from_vec(items),
        }),
        Err(_) => Err(OutOfMemory),
    }
}

/// Copies of all plates.
pub fn copies_of(alloc: Global, page: &Page) -> Result<PlaneList, OutOfMemory>
    ensures { IfOk result (λ planes. AreTrappedTo page.now planes 0) }
{
    let mut planes = List::new(alloc);
    for c in 0..page.plates() {
        push(&mut planes, copy_of(alloc, page, c)?)?;
    }
    Ok(planes)
}

/// Copies plate c to a plane with as many tints.
fn copy_over(alloc: Global, page: &Page, c: u32, plane: &mut Plane)
    requires plate { c < plates page.now }
    requires long { length plane.old.tints ≡ samples page.now }
    ensures { IsTrappedTo page.now c 0 plane.new }
{
    let planes = page.planes().as_slice();
    let before = planes[c as usize].tints.as_slice();
    let mut items = std::mem::replace(&mut plane.tints, List::new(alloc)).into_vec();
    items.as_mut_slice().copy_from_slice(before);
    plane.width = page.width();
    plane.height = page.height();
    plane.maxval = page.maxval();
    plane.tints = List::from_vec(items);
}

/// Copies all plates to planes with as many tints. It allocates nothing: the allocator is that of lists that stay
/// empty.
pub fn copy_all_over(alloc: Global, page: &Page, planes: &mut PlaneList)
    requires count { length planes.old ≡ plates page.now }
    requires long { (c : ℕ) → c < plates page.now
        → length (plane_at planes.old c).tints ≡ samples page.now }
    ensures { AreTrappedTo page.now planes.new 0 }
{
    for c in 0..page.plates() {
        copy_over(alloc, page, c, planes.item_mut(c as usize));
    }
}

/// Writes the new tints of plate c to samples of row y of its plane, one after the other.
fn put_samples(
    page: &Page,
    y: u32,
    c: u32,
    after: &[u16],
    from: usize,
    to: usize,
    plane: &mut Plane,
)
    requires line { y < height page.now }
    requires after { IsPlateRow page.now y c after.now }
    requires order { from ≤ to }
    requires inside { to ≤ width page.now }
    requires plane { IsTrappedTo page.now c (y * width page.now + from) plane.old }
    ensures { IsTrappedTo page.now c (y * width page.now + to) plane.new }
{
    let _valid = page.plates();
    let start = y as usize * page.width() as usize;
    for x in from..to {
        let _old = plane.tints.set(start + x, after[x]);
    }
}

/// Writes the new tints of plate c to a block of row y of its plane, from sample x on, if they differ from the page's.
/// Returns the number of the next sample.
fn put_block(
    page: &Page,
    y: u32,
    c: u32,
    before: &[u16],
    after: &[u16],
    x: usize,
    plane: &mut Plane,
) -> usize
    requires line { y < height page.now }
    requires column { x < width page.now }
    requires before { IsTintRow page.now y c before.now }
    requires after { IsPlateRow page.now y c after.now }
    requires plane { IsTrappedTo page.now c (y * width page.now + x) plane.old }
    ensures more { x < result }
    ensures inside { result ≤ width page.now }
    ensures plane { IsTrappedTo page.now c (y * width page.now + result) plane.new }
{
    let count = (after.len() - x).min(BLOCK);
    if !are_same(part_of(before, x, count), part_of(after, x, count)) {
        put_samples(page, y, c, after, x, x + count, plane);
    }
    x + count
}

/// Writes the new tints of plate c to row y of its plane, block by block.
fn put_each(page: &Page, y: u32, c: u32, before: &[u16], after: &[u16], plane: &mut Plane)
    requires line { y < height page.now }
    requires before { IsTintRow page.now y c before.now }
    requires after { IsPlateRow page.now y c after.now }
    requires plane { IsTrappedTo page.now c (y * width page.now) plane.old }
    ensures { IsTrappedTo page.now c ((y + 1) * width page.now) plane.new }
{
    let mut x = 0;
    while x < after.len() {
        x = put_block(page, y, c, before, after, x, plane);
    }
}

/// Writes the new tints of plate c to row y of its plane, where they differ from the page's, and returns how many
/// differ.
pub fn put_plate_row(page: &Page, y: u32, c: u32, after: &[u16], plane: &mut Plane) -> u64
    requires line { y < height page.now }
    requires plate { c < plates page.now }
    requires after { IsPlateRow page.now y c after.now }
    requires plane { IsTrappedTo page.now c (y * width page.now) plane.old }
    ensures plane { IsTrappedTo page.now c ((y + 1) * width page.now) plane.new }
    ensures count { result ≡ count_below (λ x. plate_changes page.now c (record { x = x; y = y }))
        (width page.now) }
    ensures few { result ≤ width page.now }
{
    let before = tints_of_row(page, c, y);
    if are_same(before, after) {
        return 0;
    }
    put_each(page, y, c, before, after, plane);
    differences_by_blocks(before, after)
}

/// Writes the new tints of plate c to its row y, where they differ from the page's.
fn put_plate(page: &Page, row: &[u16], y: u32, c: u32, planes: &mut PlaneList)
    requires row { IsNewRow page.now y row.now }
    requires line { y < height page.now }
    requires plate { c < plates page.now }
    requires planes { AreTrapping page.now planes.old (y * width page.now) (width page.now) c }
    ensures { AreTrapping page.now planes.new (y * width page.now) (width page.now) (c + 1) }
{
    let before = tints_of_row(page, c, y);
    let after = plate_row(page, row, y, c);
    if are_same(before, after) {
        return;
    }
    put_each(page, y, c, before, after, planes.item_mut(c as usize));
}

/// Writes the new tints of row y, plate after plate in `row`, to the planes.
pub fn put_row(page: &Page, row: &[u16], y: u32, planes: &mut PlaneList)
    requires row { IsNewRow page.now y row.now }
    requires line { y < height page.now }
    requires planes { AreTrappedTo page.now planes.old (y * width page.now) }
    ensures { AreTrappedTo page.now planes.new ((y + 1) * width page.now) }
{
    for c in 0..page.plates() {
        put_plate(page, row, y, c, planes);
    }
}
