ghost use Rattle.std.specs.Prelude.{◌≡◌, ◌≤◌, ◌<◌, ◌*◌, ◌+◌, ◌++◌, ℕ, IfOk, All, length, map, take, drop};
ghost use Rattle.page_model.specs.Planes.{plane_at};
ghost use Rattle.trap_c.specs.Copies.{AreCopies};
ghost use Rattle.trap_c.specs.Fit.{IsCall};
ghost use Rattle.trap_c.specs.Planes.{KeepsGaps, plane_with, size, tints_in};
ghost use Rattle.trap_c.specs.Sources.{numbers};
ghost use Rattle.page_model.specs.Limits.{most_plates};

use crate::layout::Layout;
use crate::source::Source;
use lists::list::List;
use lists::names::NameList;
use page_model::parts::{OutOfMemory, Plane, PlaneList};
use std::alloc::Global;

/// Planes, and whether all their tints were found to be at most the maxval.
#[derive(Drop)]
pub struct Copies {
    pub planes: PlaneList,
    pub are_fit: bool,
}

/// Copies the planes out of the samples.
pub fn planes_of(
    alloc: Global,
    source: &Source<'_>,
    layout: Layout,
    names: &NameList,
) -> Result<Copies, OutOfMemory>
    requires { IsCall names.now layout (length (numbers source.now)) }
    ensures { IfOk result (AreCopies layout (numbers source.now) (length names.now)) }
{
    let mut planes = List::new(alloc);
    let mut are_fit = true;
    for c in 0..names.len() as u32 {
        let copied = source.copy_of(alloc, layout, c)?;
        are_fit = are_fit & copied.are_fit;
        if planes.push(plane_of(layout, copied.tints)).is_err() {
            return Err(OutOfMemory);
        }
    }
    Ok(Copies { planes, are_fit })
}

fn plane_of(layout: Layout, tints: Vec<u16>) -> Plane
    ensures { result ≡ plane_with layout tints.items }
{
    Plane {
        width: layout.width,
        height: layout.height,
        maxval: layout.maxval,
        tints: List::from_vec(tints),
    }
}

/// Writes planes to samples of two bytes.
pub fn put_words(planes: &PlaneList, layout: Layout, samples: &mut [u16])
    requires layout { layout.width ≤ layout.step }
    requires all { length samples.old ≡ length planes.now * layout.height * layout.step }
    requires few { length planes.now ≤ most_plates }
    requires full { (c : ℕ) → c < length planes.now
        → length (plane_at planes.now c).tints ≡ size layout }
    ensures planes { (c : ℕ) → c < length planes.now
        → tints_in layout samples.new c ≡ (plane_at planes.now c).tints }
    ensures gaps { KeepsGaps layout samples.old samples.new }
{
    let all = planes.as_slice();
    for c in 0..all.len() {
        put_plane_words(all[c].tints.as_slice(), layout, c, samples);
    }
}

// Writes the tints of plane c to its rows.
fn put_plane_words(tints: &[u16], layout: Layout, c: usize, samples: &mut [u16])
    requires layout { layout.width ≤ layout.step }
    requires few { c < most_plates }
    requires inside { (c * layout.height + layout.height) * layout.step ≤ length samples.old }
    requires full { length tints.now ≡ size layout }
    ensures here { tints_in layout samples.new c ≡ tints.now }
    ensures before { (j : ℕ) → j < c
        → tints_in layout samples.new j ≡ tints_in layout samples.old j }
    ensures gaps { KeepsGaps layout samples.old samples.new }
{
    let width = layout.width as usize;
    let first = c * layout.height as usize;
    for y in 0..layout.height as usize {
        put_words_row(
            &tints[y * width..y * width + width],
            (first + y) * layout.step as usize,
            samples,
        );
    }
}

/// Writes a row to `samples[from..]`.
pub fn put_words_row(row: &[u16], from: usize, samples: &mut [u16])
    requires { from + length row.now ≤ length samples.old }
    ensures { samples.new ≡ take from samples.old ++ (row.now
        ++ drop (from + length row.now) samples.old) }
{
    samples[from..from + row.len()].copy_from_slice(row);
}

/// Writes planes to samples of one byte.
pub fn put_bytes(planes: &PlaneList, layout: Layout, samples: &mut [u8])
    requires layout { layout.width ≤ layout.step }
    requires all { length samples.old ≡ length planes.now * layout.height * layout.step }
    requires few { length planes.now ≤ most_plates }
    requires full { (c : ℕ) → c < length planes.now
        → length (plane_at planes.now c).tints ≡ size layout }
    requires narrow { (c : ℕ) → c < length planes.now
        → All (λ t. t ≤ 255) (plane_at planes.now c).tints }
    ensures planes { (c : ℕ) → c < length planes.now
        → tints_in layout samples.new c ≡ (plane_at planes.now c).tints }
    ensures gaps { KeepsGaps layout samples.old samples.new }
{
    let all = planes.as_slice();
    for c in 0..all.len() {
        put_plane_bytes(all[c].tints.as_slice(), layout, c, samples);
    }
}

// Writes the tints of plane c to its rows.
fn put_plane_bytes(tints: &[u16], layout: Layout, c: usize, samples: &mut [u8])
    requires layout { layout.width ≤ layout.step }
    requires few { c < most_plates }
    requires inside { (c * layout.height + layout.height) * layout.step ≤ length samples.old }
    requires full { length tints.now ≡ size layout }
    requires narrow { All (λ t. t ≤ 255) tints.now }
    ensures here { tints_in layout samples.new c ≡ tints.now }
    ensures before { (j : ℕ) → j < c
        → tints_in layout samples.new j ≡ tints_in layout samples.old j }
    ensures gaps { KeepsGaps layout samples.old samples.new }
{
    let width = layout.width as usize;
    let first = c * layout.height as usize;
    for y in 0..layout.height as usize {
        put_bytes_row(
            &tints[y * width..y * width + width],
            (first + y) * layout.step as usize,
            samples,
        );
    }
}

/// Writes a row to `samples[from..]`.
pub fn put_bytes_row(row: &[u16], from: usize, samples: &mut [u8])
    requires inside { from + length row.now ≤ length samples.old }
    requires narrow { All (λ t. t ≤ 255) row.now }
    ensures { samples.new ≡ take from samples.old ++ (row.now
        ++ drop (from + length row.now) samples.old) }
{
    narrow(row, &mut samples[from..from + row.len()]);
}

fn narrow(tints: &[u16], bytes: &mut [u8])
    requires narrow { All (λ t. t ≤ 255) tints.now }
    requires count { length bytes.old ≡ length tints.now }
    ensures { bytes.new ≡ tints.now }
{
    for (at, tint) in tints.iter().enumerate() {
        bytes[at] = *tint as u8;
    }
}
