ghost use Rattle.std.specs.Prelude.{◌≡◌, ◌↔◌, ◌*◌, ◌/◌, ◌%◌, ◌+◌, ◌<◌, ◌≤◌, ◌++◌, ◌∷◌, [], IfOk, OnOk, Err, length};
ghost use Rattle.page_source.specs.Sample.{colour as colour_of, sample_tints, sample_plane, sample_parts, sample_zone, normal_ink};
ghost use Rattle.page_model.specs.Limits.{most_samples, most_side};

use lists::list::List;
use page_model::bounds::MOST_SAMPLES;
use page_model::page::Page;
use page_model::parts::{
    Ink, InkKind, InkList, OutOfMemory, PageParts, Plane, PlaneList, TrapParams, Zone, ZoneList,
};
use std::alloc::Global;
use thiserror::Error;

/// Why a sample page could not be made.
#[derive(Clone, Copy, Debug, Drop, Error, PartialEq, Eq)]
pub enum SampleError {
    /// Four times width times height is above 160,000,000.
    #[error("the sample page has too many samples")]
    TooManySamples,
    #[error("out of memory")]
    OutOfMemory,
}

const CYAN: [u16; 8] = [255, 0, 0, 0, 0, 128, 0, 64];

const MAGENTA: [u16; 8] = [0, 255, 0, 0, 0, 0, 255, 64];

const YELLOW: [u16; 8] = [0, 0, 255, 0, 0, 255, 255, 0];

const BLACK: [u16; 8] = [0, 0, 0, 255, 0, 0, 0, 128];

/// The sample page of a number: four plates of `width * height` samples at 600 pixels per inch, in square tiles of
/// eight samples a side, and zone 0 alone. The page is this project's own.
pub fn sample_page(alloc: Global, number: u32, width: u32, height: u32) -> Result<Page, SampleError>
    requires some_width { 1 ≤ width }
    requires narrow { width ≤ most_side }
    requires some_height { 1 ≤ height }
    requires low { height ≤ most_side }
    ensures too_many { (result ≡ Err SampleError.TooManySamples)
        ↔ (most_samples < 4 * width * height) }
    ensures page { IfOk result (λ page. page ≡ sample_parts number width height) }
{
    if 4 * width as u64 * height as u64 > MOST_SAMPLES {
        return Err(SampleError::TooManySamples);
    }
    match parts(alloc, number, width, height) {
        Ok(parts) => match Page::new(parts) {
            Ok(page) => Ok(page),
            Err(_) => unreachable!(),
        },
        Err(OutOfMemory) => Err(SampleError::OutOfMemory),
    }
}

fn parts(alloc: Global, number: u32, width: u32, height: u32) -> Result<PageParts, OutOfMemory>
    requires some_width { 1 ≤ width }
    requires narrow { width ≤ most_side }
    requires low { height ≤ most_side }
    ensures { IfOk result (λ parts. parts ≡ sample_parts number width height) }
{
    let planes = planes(alloc, number, width, height)?;
    let inks = inks(alloc)?;
    let zones = zones(alloc)?;
    Ok(PageParts {
        resolution: 600,
        planes,
        inks,
        zones,
    })
}

fn planes(alloc: Global, number: u32, width: u32, height: u32) -> Result<PlaneList, OutOfMemory>
    requires some_width { 1 ≤ width }
    requires narrow { width ≤ most_side }
    requires low { height ≤ most_side }
    ensures { IfOk result (λ planes. planes ≡ (sample_parts number width height).planes) }
{
    let mut planes = List::new(alloc);
    add_plane(alloc, &mut planes, &CYAN, number, width, height)?;
    add_plane(alloc, &mut planes, &MAGENTA, number, width, height)?;
    add_plane(alloc, &mut planes, &YELLOW, number, width, height)?;
    add_plane(alloc, &mut planes, &BLACK, number, width, height)?;
    Ok(planes)
}

fn add_plane(
    alloc: Global,
    planes: &mut PlaneList,
    tints: &[u16],
    number: u32,
    width: u32,
    height: u32,
) -> Result<(), OutOfMemory>
    requires eight { length tints.now ≡ 8 }
    requires some_width { 1 ≤ width }
    requires narrow { width ≤ most_side }
    requires low { height ≤ most_side }
    ensures { OnOk result
        (planes.new ≡ planes.old ++ sample_plane tints.now number width height ∷ []) }
{
    let tints = plane_tints(alloc, tints, number, width, height)?;
    let plane = Plane {
        width,
        height,
        maxval: 255,
        tints: List::from_vec(tints),
    };
    match planes.push(plane) {
        Ok(()) => Ok(()),
        Err(_) => Err(OutOfMemory),
    }
}

// The tints of one plate, from its tints in the eight colours.
#[tactic(auto, unfolding(crate::specs::Sample::sample_tints))]
fn plane_tints(
    alloc: Global,
    tints: &[u16],
    number: u32,
    width: u32,
    height: u32,
) -> Result<Vec<u16>, OutOfMemory>
    requires eight { length tints.now ≡ 8 }
    requires some_width { 1 ≤ width }
    requires narrow { width ≤ most_side }
    requires low { height ≤ most_side }
    ensures { IfOk result (λ made. made.items ≡ sample_tints tints.now number width height) }
{
    let count = width * height;
    let Ok(mut made) = Vec::with_capacity(alloc, count as usize) else {
        return Err(OutOfMemory);
    };
    for place in 0..count {
        let tint = tints[colour(number, place % width, place / width) as usize];
        if made.push(tint).is_err() {
            return Err(OutOfMemory);
        }
    }
    Ok(made)
}

// The colour of a sample, from 0 to 7.
fn colour(number: u32, x: u32, y: u32) -> u64
    requires narrow { x < most_side }
    requires low { y < most_side }
    ensures colour { result ≡ colour_of number x y }
    ensures few { result < 8 }
{
    let across = (x / 8) as u64;
    let down = (y / 8) as u64;
    (number as u64 + 3 * across + 5 * down + across * down) % 8
}

fn inks(alloc: Global) -> Result<InkList, OutOfMemory>
    ensures { IfOk result (λ inks. inks ≡ (sample_parts 0 1 1).inks) }
{
    let mut inks = List::new(alloc);
    add_ink(alloc, &mut inks, b"Cyan", 6_100)?;
    add_ink(alloc, &mut inks, b"Magenta", 7_600)?;
    add_ink(alloc, &mut inks, b"Yellow", 1_600)?;
    add_ink(alloc, &mut inks, b"Black", 17_000)?;
    Ok(inks)
}

fn add_ink(alloc: Global, inks: &mut InkList, name: &[u8], density: u32) -> Result<(), OutOfMemory>
    ensures { OnOk result (inks.new ≡ inks.old ++ normal_ink name.now density ∷ []) }
{
    let mut copy: Vec<u8> = Vec::new(alloc);
    if copy.extend_from_slice(name).is_err() {
        return Err(OutOfMemory);
    }
    let ink = Ink {
        name: List::from_vec(copy),
        density,
        kind: InkKind::Normal,
    };
    match inks.push(ink) {
        Ok(()) => Ok(()),
        Err(_) => Err(OutOfMemory),
    }
}

fn zones(alloc: Global) -> Result<ZoneList, OutOfMemory>
    ensures { IfOk result (λ zones. zones ≡ sample_zone ∷ []) }
{
    let zone = Zone {
        params: TrapParams {
            trap_width: 7_500,
            ..TrapParams::usual()
        },
        path: List::new(alloc),
        limits: List::new(alloc),
    };
    let mut zones = List::new(alloc);
    match zones.push(zone) {
        Ok(()) => Ok(zones),
        Err(_) => Err(OutOfMemory),
    }
}
