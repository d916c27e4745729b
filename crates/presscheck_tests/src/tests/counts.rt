ghost use Rattle.std.specs.Prelude.{◌≡◌, ◌+◌, ◌*◌, ◌<◌, ◌≤◌, ℕ, List, length, IfOk, All};
ghost use Rattle.page_model.specs.declared.parts.Plane.{Plane};
ghost use Rattle.page_model.specs.Conditions.{IsPlane};
ghost use Rattle.page_model.specs.Shapes.{AreOneShape, wide, tall};
ghost use Rattle.page_model.specs.Limits.{most_plates};

use super::judge;
use lists::list::List;
use misregister::sheet::Sheet;
use misregister::{RiskBuf, risk_count};
use page_model::parts::{Plane, PlaneList};
use page_model::steps::Steps;
use std::alloc::{AllocError, Global};
use std::marker::Brand;
use std::process::Abort;
use std::sync::ledger::{Blank, Ledger};

/// Random samples, of which `outline` in eight are without ink.
fn random_tints(
    alloc: Global,
    count: usize,
    seed: u32,
    outline: u32,
) -> Result<List<u16>, AllocError>
    ensures count { IfOk result (λ tints. length tints ≡ count) }
    ensures below { IfOk result (λ tints. All (λ tint. tint ≤ 255) tints) }
{
    let mut state = seed;
    let mut tints = Vec::new(alloc);
    for _ in 0..count {
        state = state.wrapping_mul(1_664_525).wrapping_add(1_013_904_223);
        let inked = (state >> 16) % 8 >= outline;
        tints.push(if inked { 255 } else { 0 })?;
    }
    Ok(List::from_vec(tints))
}

fn random_plane(
    alloc: Global,
    width: u32,
    height: u32,
    seed: u32,
    outline: u32,
) -> Result<Plane, AllocError>
    requires some_width { 1 ≤ width }
    requires narrow { width ≤ 40 }
    requires some_height { 1 ≤ height }
    requires low { height ≤ 40 }
    ensures plane { IfOk result IsPlane }
    ensures wide { IfOk result (λ plane. plane.width ≡ width) }
    ensures tall { IfOk result (λ plane. plane.height ≡ height) }
    ensures deep { IfOk result (λ plane. plane.maxval ≡ 255) }
{
    let tints = random_tints(alloc, (width * height) as usize, seed, outline)?;
    Ok(Plane {
        width,
        height,
        maxval: 255,
        tints,
    })
}

/// Planes of one shape, each with other samples.
fn random_planes(
    alloc: Global,
    width: u32,
    height: u32,
    plates: u32,
    outline: u32,
) -> Result<PlaneList, AllocError>
    requires some_width { 1 ≤ width }
    requires narrow { width ≤ 40 }
    requires some_height { 1 ≤ height }
    requires low { height ≤ 40 }
    requires some { 1 ≤ plates }
    requires few { plates ≤ most_plates }
    ensures shape { IfOk result AreOneShape }
    ensures wide { IfOk result (λ planes. wide planes ≡ width) }
    ensures tall { IfOk result (λ planes. tall planes ≡ height) }
    ensures plates { IfOk result (λ planes. length planes ≡ plates) }
{
    let mut planes = Vec::new(alloc);
    for c in 0..plates {
        planes.push(random_plane(alloc, width, height, 977 * c + width, outline)?)?;
    }
    Ok(List::from_vec(planes))
}

/// Whether the plane has a sample without ink in the window of a sample.
fn bares(plane: &Plane, x: u32, y: u32, radius: u32) -> bool
    requires column { x < 40 }
    requires row { y < 40 }
    requires narrow { plane.now.width ≤ 40 }
    requires low { plane.now.height ≤ 40 }
    requires radius { radius ≤ 16 }
{
    for k in y.saturating_sub(radius)..plane.height.min(y + radius + 1) {
        for j in x.saturating_sub(radius)..plane.width.min(x + radius + 1) {
            let place = (k * plane.width + j) as usize;
            if plane.tints.as_slice().get(place) == Some(&0) {
                return true;
            }
        }
    }
    false
}

/// Whether the sample has ink in some plane and a sample without ink in its window in each.
fn is_at_risk(planes: &PlaneList, x: u32, y: u32, radius: u32) -> bool
    requires column { x < 40 }
    requires row { y < 40 }
    requires narrow { All (λ plane. plane.width ≤ 40) planes.now }
    requires low { All (λ plane. plane.height ≤ 40) planes.now }
    requires radius { radius ≤ 16 }
{
    let mut inked = false;
    for plane in planes.as_slice() {
        inked = inked || !bares(plane, x, y, 0);
        if !bares(plane, x, y, radius) {
            return false;
        }
    }
    inked
}

fn slow_count(planes: &PlaneList, width: u32, height: u32, radius: u32) -> u64
    requires width { width ≤ 40 }
    requires height { height ≤ 40 }
    requires narrow { All (λ plane. plane.width ≤ 40) planes.now }
    requires low { All (λ plane. plane.height ≤ 40) planes.now }
    requires radius { radius ≤ 16 }
{
    let mut count = 0u64;
    for y in 0..height {
        for x in 0..width {
            if is_at_risk(planes, x, y, radius) {
                count = count.wrapping_add(1);
            }
        }
    }
    count
}

fn count_at_risk<L: Ledger>(
    alloc: Global,
    planes: &PlaneList,
    width: u32,
    height: u32,
    plates: u32,
    radius: u32,
    blank: Blank,
) -> Option<u64>
    requires shape { AreOneShape planes.now }
    requires width { width ≡ wide planes.now }
    requires height { height ≡ tall planes.now }
    requires plates { plates ≡ length planes.now }
    requires radius { radius ≤ 16 }
    requires name { blank.name ≡ L.name }
    requires parts { blank.parts ≡ L.parts }
    requires some_parts { 0 < L.parts }
{
    match RiskBuf::new(alloc, width, height) {
        Ok(buf) => {
            let mut buf = buf;
            let mut steps = Steps::<L>::new(blank);
            let sheet = Sheet::new(planes);
            Some(risk_count(&sheet, width, height, plates, radius, &mut buf, &mut steps))
        }
        Err(_) => None,
    }
}

/// Whether the sheet says of each sample of a row of plate c whether the plane has ink there.
fn row_is_reported<L: Ledger>(
    sheet: &Sheet,
    plane: &Plane,
    c: u32,
    y: u32,
    width: u32,
    steps: &mut Steps<L>,
) -> bool
    requires plate { c < length sheet.now }
    requires width { width ≡ wide sheet.now }
    requires narrow { width ≤ 40 }
    requires row { y < tall sheet.now }
    requires low { y < 40 }
{
    for x in 0..width {
        let outline = plane.tints.as_slice().get((y * width + x) as usize) == Some(&0);
        if sheet.is_outline(c, x, y, steps) != outline {
            return false;
        }
    }
    true
}

/// Whether the sheet says so of each row of plate c.
fn plate_is_reported<L: Ledger>(
    sheet: &Sheet,
    plane: &Plane,
    c: u32,
    height: u32,
    blank: Blank,
) -> bool
    requires plate { c < length sheet.now }
    requires height { height ≡ tall sheet.now }
    requires narrow { wide sheet.now ≤ 40 }
    requires low { height ≤ 40 }
    requires plane { plane.now.width ≡ wide sheet.now }
    requires name { blank.name ≡ L.name }
    requires parts { blank.parts ≡ L.parts }
    requires some_parts { 0 < L.parts }
{
    let mut steps = Steps::<L>::new(blank);
    for y in 0..height {
        if !row_is_reported(sheet, plane, c, y, plane.width, &mut steps) {
            return false;
        }
    }
    true
}

/// The first radius at which the two counts differ.
fn first_difference(
    alloc: Global,
    planes: &PlaneList,
    width: u32,
    height: u32,
    plates: u32,
) -> Option<u32>
    requires shape { AreOneShape planes.now }
    requires width { width ≡ wide planes.now }
    requires height { height ≡ tall planes.now }
    requires plates { plates ≡ length planes.now }
    requires narrow { width ≤ 40 }
    requires low { height ≤ 40 }
{
    for radius in 0..17 {
        let slow = slow_count(planes, width, height, radius);
        let fast = count_at_risk::<Brand>(
            alloc,
            planes,
            width,
            height,
            plates,
            radius,
            Blank::new(1),
        );
        if fast != Some(slow) {
            return Some(radius);
        }
    }
    None
}

/// The first plate of which the sheet says something else than its plane.
fn first_misread(planes: &PlaneList, height: u32, plates: u32) -> Option<u32>
    requires shape { AreOneShape planes.now }
    requires height { height ≡ tall planes.now }
    requires plates { plates ≡ length planes.now }
    requires narrow { wide planes.now ≤ 40 }
    requires low { height ≤ 40 }
{
    let sheet = Sheet::new(planes);
    for c in 0..plates {
        let plane = &planes.as_slice()[c as usize];
        if !plate_is_reported::<Brand>(&sheet, plane, c, height, Blank::new(1)) {
            return Some(c);
        }
    }
    None
}

// The width, the height, the plates, and how many samples of eight are without ink.
type Random = (u32, u32, u32, u32);

const PAGES: &[Random] = &[
    (1, 1, 1, 0),
    (1, 1, 2, 8),
    (40, 1, 2, 1),
    (1, 40, 2, 1),
    (2, 3, 3, 4),
    (7, 5, 1, 1),
    (7, 5, 3, 1),
    (5, 7, 1, 2),
    (5, 7, 16, 4),
    (17, 16, 3, 1),
    (16, 18, 2, 1),
    (33, 34, 2, 1),
    (9, 9, 16, 2),
    (40, 40, 4, 1),
];

// Whether the sheet of such a page says of each sample whether it has ink, and both counts of it are one at each radius.
fn is_right(rt: &impl Abort, alloc: Global, (width, height, plates, outline): Random) -> bool {
    if width < 1 || width > 40 || height < 1 || height > 40 || plates < 1 || plates > 16 {
        return false;
    }
    let planes = random_planes(alloc, width, height, plates, outline).expect(rt, "no memory");
    let is_read = first_misread(&planes, height, plates) == None;
    is_read && first_difference(alloc, &planes, width, height, plates) == None
}

#[test]
fn random_pages_are_read_and_counted_as_the_definition_says(rt: HostRuntime) {
    for (row, page) in PAGES.iter().enumerate() {
        judge(&rt, is_right(&rt, rt.alloc(), *page), "page", row as u64);
    }
}
