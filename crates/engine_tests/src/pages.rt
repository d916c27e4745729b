ghost use Rattle.std.specs.Prelude.{◌≡◌, ◌≤◌, ◌∷◌, [], All, length};
ghost use Rattle.page_model.specs.Conditions.{IsInk, IsParts, IsPlane, IsZone};
ghost use Rattle.strip_engine.specs.Whole.{sample_zones};

use crate::memory::{both, put, value_of};
use crate::random_pages::{Shape, page_of, some_page, some_shape};
use crate::slow_marks::slow_marks;
use crate::slow_traps::{same_traps, slow_traps};
use crate::zones::{marks_of, zones_of};
use lists::list::List;
use page_model::page::Page;
use page_model::parts::{
    Counts, Ink, InkKind, InkList, PageParts, Plane, PlaneList, TrapParams, Zone,
};
use page_tally::Trapped;
use std::alloc::Global;
use std::process::Abort;
use strip_engine::trap_alone;
use zone_map::{SpanBuf, zone_row};

/// Six samples in a row.
fn separation(rt: &impl Abort, alloc: Global, row: &[u16]) -> Plane
    requires six { length row.now ≡ 6 }
    requires deep { All (λ t. t ≤ 255) row.now }
    ensures { IsPlane result }
{
    match Vec::from_slice(alloc, row) {
        Ok(items) => Plane {
            width: 6,
            height: 1,
            maxval: 255,
            tints: List::from_vec(items),
        },
        Err(_) => panic!(rt; "no memory"),
    }
}

fn colorant(rt: &impl Abort, alloc: Global, letter: u8, density: u32) -> Ink
    requires some { 10 ≤ density }
    requires most { density ≤ 100000 }
    ensures { IsInk result }
{
    let mut name = List::new(alloc);
    put(rt, &mut name, letter);
    Ink {
        name,
        density,
        kind: InkKind::Normal,
    }
}

/// The whole page, with traps of two points.
fn everywhere(alloc: Global) -> Zone
    ensures zone { IsZone result }
    ensures path { result.path ≡ [] }
{
    let mut params = TrapParams::usual();
    params.trap_width = 20_000;
    Zone {
        params,
        path: List::new(alloc),
        limits: List::new(alloc),
    }
}

/// Three samples of cyan beside three of magenta.
fn pair_planes(rt: &impl Abort, alloc: Global) -> PlaneList
    ensures two { length result ≡ 2 }
    ensures planes { All IsPlane result }
{
    let cyan = separation(rt, alloc, &[255, 255, 255, 0, 0, 0]);
    let magenta = separation(rt, alloc, &[0, 0, 0, 255, 255, 255]);
    both(rt, alloc, cyan, magenta)
}

fn pair_inks(rt: &impl Abort, alloc: Global) -> InkList
    ensures two { length result ≡ 2 }
    ensures inks { All IsInk result }
{
    let cyan = colorant(rt, alloc, b'C', 6_100);
    let magenta = colorant(rt, alloc, b'M', 7_600);
    both(rt, alloc, cyan, magenta)
}

/// These planes and inks at 72 pixels an inch, with one zone.
fn pair_of(rt: &impl Abort, alloc: Global, planes: PlaneList, inks: InkList) -> PageParts
    requires planes { length planes ≡ 2 }
    requires planes_in_range { All IsPlane planes }
    requires inks { length inks ≡ 2 }
    requires inks_in_range { All IsInk inks }
    ensures { IsParts result }
{
    let mut zones = List::new(alloc);
    put(rt, &mut zones, everywhere(alloc));
    PageParts {
        resolution: 72,
        planes,
        inks,
        zones,
    }
}

fn pair(rt: &impl Abort, alloc: Global) -> PageParts
    ensures { IsParts result }
{
    let planes = pair_planes(rt, alloc);
    let inks = pair_inks(rt, alloc);
    pair_of(rt, alloc, planes, inks)
}

/// The page of three samples of cyan beside three of magenta.
fn pair_page(rt: &impl Abort, alloc: Global) -> Page {
    page_of(rt, pair(rt, alloc))
}

const TRAPPED: [&[u16]; 2] = [&[255, 255, 255, 255, 0, 0], &[0, 0, 255, 255, 255, 255]];

/// Whether the planes have the tints of TRAPPED.
fn are_trapped(planes: &[Plane]) -> bool {
    match planes {
        [cyan, magenta] => {
            cyan.tints.as_slice() == TRAPPED[0] && magenta.tints.as_slice() == TRAPPED[1]
        }
        _ => false,
    }
}

/// Whether both samples beside the one edge change.
fn are_counted(counts: &Counts) -> bool {
    counts.zone_samples.as_slice() == [6].as_slice()
        && counts.zone_changed.as_slice() == [2].as_slice()
        && counts.edges == 1
        && counts.plate_changed.as_slice() == [1, 1].as_slice()
}

fn looks_at(trapped: &Trapped) -> (bool, bool) {
    (
        are_trapped(trapped.planes.as_slice()),
        are_counted(&trapped.counts),
    )
}

/// Whether the planes and the counts of the trapped page are right.
fn looks_at_traps(rt: &impl Abort, alloc: Global, page: &Page) -> (bool, bool) {
    let trapped = value_of(rt, trap_alone(alloc, page));
    looks_at(&trapped)
}

fn looks_at_pair(rt: &impl Abort, alloc: Global) -> (bool, bool) {
    let page = pair_page(rt, alloc);
    looks_at_traps(rt, alloc, &page)
}

#[test]
fn traps_both_sides(rt: HostRuntime) {
    let (are_trapped, are_counted) = looks_at_pair(&rt, rt.alloc());
    assert!(rt; are_trapped);
    assert!(rt; are_counted);
}

/// The zones of the first row of a page of six by one; `None` where it has other sides.
fn first_zones(page: &Page, spans: &mut SpanBuf) -> Option<[u8; 6]>
    requires { spans.old.wide ≡ 6 }
{
    if page.width() != 6 || page.height() != 1 {
        return None;
    }
    let mut zones = [9u8; 6];
    zone_row(page, 0, &mut zones, spans);
    Some(zones)
}

fn pair_zones(rt: &impl Abort, alloc: Global) -> Option<[u8; 6]> {
    let page = pair_page(rt, alloc);
    let mut spans = value_of(rt, SpanBuf::new(alloc, 6));
    first_zones(&page, &mut spans)
}

#[test]
fn writes_a_row_of_zones(rt: HostRuntime) {
    assert!(rt; pair_zones(&rt, rt.alloc()) == Some([0; 6]));
}

/// How many edges these marks name.
fn edges_of(marks: &[u8]) -> u64 {
    marks.iter().fold(
        0u64,
        |sum, mark| sum.wrapping_add(u64::from(mark % 2 + mark / 2)),
    )
}

/// How many edges the marks name, or `None` where they are not those that the samples have one by one.
fn edges_among(
    rt: &impl Abort,
    alloc: Global,
    page: &Page,
    zones: &[u8],
    marks: &[u8],
) -> Option<u64>
    requires { zones.now ≡ sample_zones page.now }
{
    let slow = slow_marks(rt, alloc, page, zones);
    edges_if_same(marks, slow.as_slice())
}

fn edges_if_same(marks: &[u8], slow: &[u8]) -> Option<u64> {
    if marks == slow {
        Some(edges_of(marks))
    } else {
        None
    }
}

fn marked_edges(rt: &impl Abort, alloc: Global, page: &Page, zones: &[u8]) -> Option<u64>
    requires { zones.now ≡ sample_zones page.now }
{
    let marks = marks_of(rt, alloc, page, zones);
    edges_among(rt, alloc, page, zones, marks.as_slice())
}

fn edges_on(rt: &impl Abort, alloc: Global, page: &Page) -> Option<u64> {
    let zones = zones_of(rt, alloc, page);
    marked_edges(rt, alloc, page, zones.as_slice())
}

/// How many edges of a random page decide, or `None` where its marks are not those that its samples have one by one.
fn edges_alike(rt: &impl Abort, alloc: Global, dice: &mut u64, shape: Shape) -> Option<u64> {
    let page = some_page(rt, alloc, dice, shape);
    edges_on(rt, alloc, &page)
}

/// The number that was counted on the page of that turn, whose marks or traps are the same.
fn count_of(rt: &impl Abort, count: Option<u64>, turn: u32) -> u64 {
    match count {
        Some(count) => count,
        None => panic!(rt; "page {turn} is marked or trapped otherwise"),
    }
}

#[test]
fn marks_rows_as_their_samples(rt: HostRuntime) {
    let mut dice = 2026;
    let mut edges: u64 = 0;
    for turn in 0..24 {
        let shape = Shape {
            width: if turn % 6 == 5 { 1_100 } else { 30 },
            height: 6,
            plates: 2 + turn % 4,
            resolution: 72,
            reach2: 1,
            run: 1,
        };
        let more = edges_alike(&rt, rt.alloc(), &mut dice, shape);
        edges = edges.wrapping_add(count_of(&rt, more, turn));
    }
    assert!(rt; edges > 500);
}

/// How many tints these counts say to change.
fn changes_of(trapped: &Trapped) -> u64 {
    let changed = trapped.counts.plate_changed.as_slice();
    changed
        .iter()
        .fold(0u64, |sum, more| sum.wrapping_add(*more))
}

/// How many tints of the page change, or `None` where these traps are not those of the slow search.
fn changes_among(rt: &impl Abort, alloc: Global, page: &Page, trapped: &Trapped) -> Option<u64> {
    let slow = slow_traps(rt, alloc, page);
    changes_if_same(trapped, &slow)
}

fn changes_if_same(trapped: &Trapped, slow: &Trapped) -> Option<u64> {
    if same_traps(trapped, slow) {
        Some(changes_of(slow))
    } else {
        None
    }
}

fn changes_on(rt: &impl Abort, alloc: Global, page: &Page) -> Option<u64> {
    let trapped = value_of(rt, trap_alone(alloc, page));
    changes_among(rt, alloc, page, &trapped)
}

/// How many tints of a random page change, or `None` where its traps are not those of the slow search.
fn traps_alike(rt: &impl Abort, alloc: Global, dice: &mut u64, shape: Shape) -> Option<u64> {
    let page = some_page(rt, alloc, dice, shape);
    changes_on(rt, alloc, &page)
}

/// The changes of some pages of three sizes: higher than two strips, wide and square.
fn changes_alike(rt: &impl Abort, alloc: Global, dice: &mut u64, reach2: u32) -> u64
    requires { reach2 ≤ 256 }
{
    let mut changed: u64 = 0;
    for turn in 0..40 {
        let (width, height) = match turn % 4 {
            0 => (150, 3),
            1 => (20, 20),
            _ => (3, 150),
        };
        let shape = some_shape(dice, width, height, reach2);
        let more = traps_alike(rt, alloc, dice, shape);
        changed = changed.wrapping_add(count_of(rt, more, turn));
    }
    changed
}

#[test]
fn traps_as_the_search_of_the_whole_page(rt: HostRuntime) {
    let mut dice = 1990;
    let mut changed: u64 = 0;
    for reach2 in [1, 0, 2, 3, 13, 40, 256] {
        let more = changes_alike(&rt, rt.alloc(), &mut dice, reach2);
        changed = changed.wrapping_add(more);
    }
    assert!(rt; changed > 500);
}
