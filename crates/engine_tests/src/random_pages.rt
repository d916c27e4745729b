// Small random pages for tests: some plates of runs of few tints, inks of every kind, and two zones.

ghost use Rattle.std.specs.Prelude.{◌≡◌, ◌≤◌, ◌<◌, [], All, length, vec_len};
ghost use Rattle.page_model.specs.Parameters.{InRange};
ghost use Rattle.page_model.specs.Conditions.{AreLimits, IsInk, IsParts, IsPath, IsPlane, IsVertex, IsZone};
ghost use Rattle.page_model.specs.Limits.{most_plates};

use crate::memory::{both, put};
use lists::list::List;
use page_model::page::Page;
use page_model::parts::{
    Ink, InkKind, InkList, Limit, LimitList, PageParts, Plane, PlaneList, TrapParams, Vertex,
    VertexList, Zone,
};
use std::alloc::Global;
use std::process::Abort;

/// The shape of a random page.
#[derive(Clone, Copy, Drop)]
pub struct Shape {
    pub width: u32,
    pub height: u32,
    pub plates: u32,
    /// In pixels per inch.
    pub resolution: u32,
    /// How far a zone reaches at most, in half-samples.
    pub reach2: u32,
    /// After how many samples all plates may take other tints.
    pub run: u32,
    ghost some_width: { 1 ≤ width },
    ghost narrow: { width ≤ 2000 },
    ghost some_height: { 1 ≤ height },
    ghost low: { height ≤ 2000 },
    ghost some_plates: { 1 ≤ plates },
    ghost few_plates: { plates ≤ 16 },
    ghost resolved: { 1 ≤ resolution },
    ghost fine: { resolution ≤ 10000 },
    ghost near: { reach2 ≤ 256 },
    ghost some_run: { 1 ≤ run },
}

/// A random number below the number of sides.
fn roll(dice: &mut u64, sides: u64) -> u64
    requires { 1 ≤ sides }
    ensures { result < sides }
{
    *dice = dice
        .wrapping_mul(6_364_136_223_846_793_005)
        .wrapping_add(1_442_695_040_888_963_407);
    (*dice >> 33) % sides
}

/// After how many samples tints may change: few or many.
fn some_run(dice: &mut u64) -> u32
    ensures { 1 ≤ result }
{
    let most = if roll(dice, 2) == 0 { 4 } else { 400 };
    1 + roll(dice, most) as u32
}

/// A random shape with these sides and this reach.
pub fn some_shape(dice: &mut u64, width: u32, height: u32, reach2: u32) -> Shape
    requires some_width { 1 ≤ width }
    requires narrow { width ≤ 2000 }
    requires some_height { 1 ≤ height }
    requires low { height ≤ 2000 }
    requires near { reach2 ≤ 256 }
{
    Shape {
        width,
        height,
        plates: 2 + roll(dice, 3) as u32,
        resolution: if roll(dice, 2) == 0 { 72 } else { 720 },
        reach2,
        run: some_run(dice),
    }
}

fn some_tint(dice: &mut u64) -> u8 {
    match roll(dice, 4) {
        0 => 0,
        1 => 60,
        2 => 150,
        _ => 255,
    }
}

/// The last tint again, or a random one where the tint may change.
fn next_tint(dice: &mut u64, last: u8, may_change: bool) -> u8 {
    if may_change && roll(dice, 2) == 0 {
        some_tint(dice)
    } else {
        last
    }
}

/// Few tints, each for some whole runs.
fn some_tints(rt: &impl Abort, alloc: Global, dice: &mut u64, count: usize, run: u32) -> Vec<u16>
    requires { 1 ≤ run }
    ensures long { vec_len result ≡ count }
    ensures deep { All (λ t. t ≤ 255) result.items }
{
    let mut tints = Vec::new(alloc);
    let mut last = 0;
    for k in 0..count {
        last = next_tint(dice, last, k % run as usize == 0);
        if tints.push(u16::from(last)).is_err() {
            panic!(rt; "no memory")
        }
    }
    tints
}

fn some_plane(rt: &impl Abort, alloc: Global, dice: &mut u64, shape: Shape) -> Plane
    ensures { IsPlane result }
{
    let count = shape.width as usize * shape.height as usize;
    let tints = some_tints(rt, alloc, dice, count, shape.run);
    Plane {
        width: shape.width,
        height: shape.height,
        maxval: 255,
        tints: List::from_vec(tints),
    }
}

fn some_planes(rt: &impl Abort, alloc: Global, dice: &mut u64, shape: Shape) -> PlaneList
    ensures count { length result ≡ shape.plates }
    ensures planes { All IsPlane result }
{
    let mut planes = List::new(alloc);
    for _c in 0..shape.plates {
        put(rt, &mut planes, some_plane(rt, alloc, dice, shape));
    }
    planes
}

fn some_kind(dice: &mut u64) -> InkKind {
    match roll(dice, 8) {
        0 => InkKind::Transparent,
        1 => InkKind::Opaque,
        2 => InkKind::OpaqueIgnore,
        _ => InkKind::Normal,
    }
}

/// In ten-thousandths; the greatest is dense enough for black.
fn some_density(dice: &mut u64) -> u32
    ensures some { 10 ≤ result }
    ensures most { result ≤ 100000 }
{
    match roll(dice, 4) {
        0 => 1_600,
        1 => 17_000,
        _ => 6_000,
    }
}

fn some_ink(rt: &impl Abort, alloc: Global, dice: &mut u64, letter: u8) -> Ink
    ensures { IsInk result }
{
    let mut name = List::new(alloc);
    put(rt, &mut name, letter);
    Ink {
        name,
        density: some_density(dice),
        kind: some_kind(dice),
    }
}

fn some_inks(rt: &impl Abort, alloc: Global, dice: &mut u64, count: u32) -> InkList
    requires few { count ≤ most_plates }
    ensures count { length result ≡ count }
    ensures inks { All IsInk result }
{
    let mut inks = List::new(alloc);
    for c in 0..count {
        put(rt, &mut inks, some_ink(rt, alloc, dice, b'A' + c as u8));
    }
    inks
}

fn some_step(dice: &mut u64) -> u32
    ensures { result ≤ 6000 }
{
    roll(dice, 3) as u32 * 3_000
}

/// One of three parts of a whole of 10,000, the least of them at least 1.
fn some_part(dice: &mut u64) -> u32
    ensures some { 1 ≤ result }
    ensures most { result ≤ 10000 }
{
    match roll(dice, 3) {
        0 => 3_000,
        1 => 7_000,
        _ => 10_000,
    }
}

fn some_black_width(dice: &mut u64) -> u32
    ensures some { 1 ≤ result }
    ensures most { result ≤ 100000 }
{
    match roll(dice, 3) {
        0 => 5_000,
        1 => 10_000,
        _ => 20_000,
    }
}

/// A random trap width with which parameters of that black width reach exactly `reach2` half-samples.
fn some_trap_width(dice: &mut u64, black_width: u32, resolution: u32, reach2: u32) -> u32
    requires resolved { 1 ≤ resolution }
    requires near { reach2 ≤ 256 }
    ensures some { 1 ≤ result }
    ensures most { result ≤ 1000000 }
{
    let factor = u64::from(black_width.max(10_000));
    let half_sample = (3_600_000_000 / factor / u64::from(resolution)).max(1);
    let width = u64::from(reach2) * half_sample + roll(dice, half_sample);
    width.max(1).min(1_000_000) as u32
}

fn some_params(dice: &mut u64, resolution: u32, reach2: u32) -> TrapParams
    requires resolved { 1 ≤ resolution }
    requires near { reach2 ≤ 256 }
    ensures { InRange result }
{
    let mut params = TrapParams::usual();
    params.black_width = some_black_width(dice);
    params.trap_width = some_trap_width(dice, params.black_width, resolution, reach2);
    params.black_color_limit = some_part(dice);
    params.step_limit = some_step(dice);
    params.sliding_trap_limit = some_part(dice);
    params.trap_color_scaling = some_part(dice);
    params.enabled = roll(dice, 8) > 0;
    params
}

/// A step limit for the second ink.
fn some_limits(rt: &impl Abort, alloc: Global, dice: &mut u64) -> LimitList
    ensures { AreLimits result }
{
    let mut name = List::new(alloc);
    put(rt, &mut name, b'B');
    let step = some_step(dice);
    let mut limits = List::new(alloc);
    put(rt, &mut limits, Limit { name, step });
    limits
}

/// The length of `count` samples, in ten-thousandths of a point.
fn sides(count: u32, resolution: u32) -> u32
    requires few { count ≤ 2001 }
    requires resolved { 1 ≤ resolution }
    ensures { result ≤ 2000000000 }
{
    count * (720_000 / resolution)
}

/// A vertex at the corner of a sample.
fn vertex(x: u32, y: u32, resolution: u32, starts: bool) -> Vertex
    requires x { x ≤ 2001 }
    requires y { y ≤ 2001 }
    requires resolved { 1 ≤ resolution }
    ensures near { IsVertex result }
    ensures starts { result.starts ≡ starts }
{
    Vertex {
        x: i64::from(sides(x, resolution)),
        y: i64::from(sides(y, resolution)),
        starts,
    }
}

/// A rectangle that goes up from the page's second row from below, over some of its columns.
fn some_path(rt: &impl Abort, alloc: Global, dice: &mut u64, shape: Shape) -> VertexList
    ensures path { IsPath result }
    ensures few { length result ≡ 4 }
{
    let left = roll(dice, u64::from(shape.width)) as u32;
    let right = roll(dice, u64::from(shape.width)) as u32;
    let high = 2 + roll(dice, u64::from(shape.height)) as u32;
    let mut path = List::new(alloc);
    put(rt, &mut path, vertex(left, 1, shape.resolution, true));
    put(rt, &mut path, vertex(right, 1, shape.resolution, false));
    put(rt, &mut path, vertex(right, high, shape.resolution, false));
    put(rt, &mut path, vertex(left, high, shape.resolution, false));
    path
}

/// A zone over a path, with a step limit and random parameters, that reaches `reach2` half-samples if it is enabled.
fn zone_over(
    rt: &impl Abort,
    alloc: Global,
    dice: &mut u64,
    path: VertexList,
    resolution: u32,
    reach2: u32,
) -> Zone
    requires path { IsPath path }
    requires resolved { 1 ≤ resolution }
    requires near { reach2 ≤ 256 }
    ensures zone { IsZone result }
    ensures path { result.path ≡ path }
{
    Zone {
        params: some_params(dice, resolution, reach2),
        path,
        limits: some_limits(rt, alloc, dice),
    }
}

/// The plates of a page, each with its ink.
#[derive(Drop)]
struct Inked {
    planes: PlaneList,
    inks: InkList,
    ghost some: { 1 ≤ length planes },
    ghost few: { length planes ≤ most_plates },
    ghost each: { length inks ≡ length planes },
    ghost planes_in_range: { All IsPlane planes },
    ghost inks_in_range: { All IsInk inks },
}

fn some_inked(rt: &impl Abort, alloc: Global, dice: &mut u64, shape: Shape) -> Inked {
    let planes = some_planes(rt, alloc, dice, shape);
    let inks = some_inks(rt, alloc, dice, shape.plates);
    Inked { planes, inks }
}

/// Two zones of a page: what no path covers, and one of four vertices.
#[derive(Drop)]
struct Zoned {
    rest: Zone,
    over: Zone,
    ghost rest_in_range: { IsZone rest },
    ghost over_in_range: { IsZone over },
    ghost rest_covers_none: { rest.path ≡ [] },
    ghost over_is_small: { length over.path ≡ 4 },
}

fn path_zone(rt: &impl Abort, alloc: Global, dice: &mut u64, shape: Shape) -> Zone
    ensures zone { IsZone result }
    ensures path { length result.path ≡ 4 }
{
    let path = some_path(rt, alloc, dice, shape);
    zone_over(rt, alloc, dice, path, shape.resolution, shape.reach2)
}

/// The zone of the path reaches the farthest, and the other one at random less.
fn some_zoned(rt: &impl Abort, alloc: Global, dice: &mut u64, shape: Shape) -> Zoned {
    let less = roll(dice, u64::from(shape.reach2) + 1) as u32;
    let rest = zone_over(rt, alloc, dice, List::new(alloc), shape.resolution, less);
    let over = path_zone(rt, alloc, dice, shape);
    Zoned { rest, over }
}

fn parts_of(
    rt: &impl Abort,
    alloc: Global,
    resolution: u32,
    inked: Inked,
    zoned: Zoned,
) -> PageParts
    requires resolved { 1 ≤ resolution }
    requires fine { resolution ≤ 10000 }
    ensures { IsParts result }
{
    let zones = both(rt, alloc, zoned.rest, zoned.over);
    PageParts {
        resolution,
        planes: inked.planes,
        inks: inked.inks,
        zones,
    }
}

/// The parts of a random page.
fn some_parts(rt: &impl Abort, alloc: Global, dice: &mut u64, shape: Shape) -> PageParts
    ensures { IsParts result }
{
    let inked = some_inked(rt, alloc, dice, shape);
    let zoned = some_zoned(rt, alloc, dice, shape);
    parts_of(rt, alloc, shape.resolution, inked, zoned)
}

/// The page of these parts.
pub fn page_of(rt: &impl Abort, parts: PageParts) -> Page
    requires { IsParts parts }
{
    match Page::new(parts) {
        Ok(page) => page,
        Err((_fault, _parts)) => panic!(rt; "a fault"),
    }
}

/// A random page.
pub fn some_page(rt: &impl Abort, alloc: Global, dice: &mut u64, shape: Shape) -> Page {
    page_of(rt, some_parts(rt, alloc, dice, shape))
}
