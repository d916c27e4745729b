// The traps of a page by the whole rule, for tests: the decider of each sample is searched for among all deciding edges.

ghost use Rattle.std.specs.Prelude.{◌≡◌, ◌<◌, All, length};
ghost use Rattle.std.specs.Option.{ForSome};
ghost use Rattle.page_model.specs.Edges.{IsEdge};
ghost use Rattle.page_model.specs.Page.{InPage, plates, samples};
ghost use Rattle.strip_engine.specs.Whole.{sample_zones};

use crate::grid::{sample_of, samples_of};
use crate::memory::{put, value_of};
use crate::slow_edges::{deciding_edges, zone_among};
use crate::zones::zones_of;
use lists::list::List;
use lists::memory::vec_of;
use page_model::edges::squared_distance;
use page_model::page::Page;
use page_model::parts::{At, CountList, Counts, EdgeAt, Plane, PlaneList};
use page_tally::Trapped;
use std::alloc::Global;
use std::process::Abort;
use trap_color::trap_sample;

/// Whether e is nearer to p than f is, or as near and further left, or above f in its column.
fn comes_before(page: &Page, p: At, e: EdgeAt, f: EdgeAt) -> bool
    requires sample { InPage page.now p }
    requires e { IsEdge page.now e }
    requires f { IsEdge page.now f }
{
    let _valid = page.plates();
    let one = squared_distance(p, e);
    let two = squared_distance(p, f);
    one < two || one == two && (e.x2 < f.x2 || e.x2 == f.x2 && e.y2 < f.y2)
}

/// Of the edge found and another the one that comes first for p.
fn earlier(page: &Page, p: At, found: Option<EdgeAt>, e: EdgeAt) -> EdgeAt
    requires sample { InPage page.now p }
    requires found { ForSome found (IsEdge page.now) }
    requires e { IsEdge page.now e }
    ensures { IsEdge page.now result }
{
    match found {
        Some(f) => { if comes_before(page, p, e, f) { e } else { f } }
        None => e,
    }
}

/// The first of the edges for p.
fn first_for(page: &Page, p: At, edges: &[EdgeAt]) -> Option<EdgeAt>
    requires sample { InPage page.now p }
    requires edges { All (IsEdge page.now) edges.now }
    ensures { ForSome result (IsEdge page.now) }
{
    let mut found = None;
    for e in edges {
        found = Some(earlier(page, p, found, *e));
    }
    found
}

/// The decider of each sample.
fn slow_deciders(
    rt: &impl Abort,
    alloc: Global,
    page: &Page,
    edges: &[EdgeAt],
) -> List<Option<EdgeAt>>
    requires { All (IsEdge page.now) edges.now }
    ensures count { length result ≡ samples page.now }
    ensures edges { All (λ decider. ForSome decider (IsEdge page.now)) result }
{
    let mut deciders = List::new(alloc);
    for k in 0..samples_of(page) {
        put(
            rt,
            &mut deciders,
            first_for(page, sample_of(page, k), edges),
        );
    }
    deciders
}

/// Writes the new tints of sample k, one for each plate.
fn trap_at(page: &Page, zones: &[u8], deciders: &[Option<EdgeAt>], k: usize, out: &mut [u16])
    requires zones { zones.now ≡ sample_zones page.now }
    requires count { length deciders.now ≡ samples page.now }
    requires edges { All (λ decider. ForSome decider (IsEdge page.now)) deciders.now }
    requires sample { k < samples page.now }
    requires out { length out.old ≡ plates page.now }
    ensures { length out.new ≡ plates page.now }
{
    let p = sample_of(page, k);
    let zone = zone_among(page, zones, p);
    trap_sample(page, p, zone, deciders[k], out);
}

/// Plate c after trapping.
fn slow_plane(
    rt: &impl Abort,
    alloc: Global,
    page: &Page,
    zones: &[u8],
    deciders: &[Option<EdgeAt>],
    c: u32,
) -> Plane
    requires zones { zones.now ≡ sample_zones page.now }
    requires count { length deciders.now ≡ samples page.now }
    requires edges { All (λ decider. ForSome decider (IsEdge page.now)) deciders.now }
    requires plate { c < plates page.now }
{
    let mut out = value_of(rt, vec_of(alloc, 0u16, page.plates() as usize));
    let mut tints = List::new(alloc);
    for k in 0..samples_of(page) {
        trap_at(page, zones, deciders, k, &mut out);
        put(rt, &mut tints, out[c as usize]);
    }
    Plane {
        width: page.width(),
        height: page.height(),
        maxval: page.maxval(),
        tints,
    }
}

/// All plates after trapping.
fn slow_planes(
    rt: &impl Abort,
    alloc: Global,
    page: &Page,
    zones: &[u8],
    deciders: &[Option<EdgeAt>],
) -> PlaneList
    requires zones { zones.now ≡ sample_zones page.now }
    requires count { length deciders.now ≡ samples page.now }
    requires edges { All (λ decider. ForSome decider (IsEdge page.now)) deciders.now }
{
    let mut planes = List::new(alloc);
    for c in 0..page.plates() {
        put(
            rt,
            &mut planes,
            slow_plane(rt, alloc, page, zones, deciders, c),
        );
    }
    planes
}

/// Whether some tint is not the one that p has on the page.
fn is_changed(page: &Page, p: At, tints: &[u16]) -> bool
    requires sample { InPage page.now p }
    requires tints { length tints.now ≡ plates page.now }
{
    let mut any = false;
    for c in 0..page.plates() {
        any = any || tints[c as usize] != page.tint(c, p.x, p.y);
    }
    any
}

/// For each sample whether some plate changes there.
fn slow_changes(
    rt: &impl Abort,
    alloc: Global,
    page: &Page,
    zones: &[u8],
    deciders: &[Option<EdgeAt>],
) -> List<bool>
    requires zones { zones.now ≡ sample_zones page.now }
    requires count { length deciders.now ≡ samples page.now }
    requires edges { All (λ decider. ForSome decider (IsEdge page.now)) deciders.now }
{
    let mut out = value_of(rt, vec_of(alloc, 0u16, page.plates() as usize));
    let mut changes = List::new(alloc);
    for k in 0..samples_of(page) {
        trap_at(page, zones, deciders, k, &mut out);
        put(rt, &mut changes, is_changed(page, sample_of(page, k), &out));
    }
    changes
}

/// How many samples lie in each zone.
fn slow_samples(rt: &impl Abort, alloc: Global, page: &Page, zones: &[u8]) -> CountList {
    let mut counts = List::new(alloc);
    for z in 0..page.zones() {
        put(rt, &mut counts, samples_in(zones, z));
    }
    counts
}

fn samples_in(zones: &[u8], z: u32) -> u64 {
    zones.iter().filter(|zone| u32::from(**zone) == z).count() as u64
}

/// How many samples of each zone change.
fn slow_changed(
    rt: &impl Abort,
    alloc: Global,
    page: &Page,
    zones: &[u8],
    changes: &[bool],
) -> CountList {
    let mut counts = List::new(alloc);
    for z in 0..page.zones() {
        put(rt, &mut counts, count_changes(zones, changes, z));
    }
    counts
}

fn count_changes(zones: &[u8], changes: &[bool], z: u32) -> u64 {
    let both = zones.iter().zip(changes);
    both.filter(|(zone, changed)| **changed && u32::from(**zone) == z)
        .count() as u64
}

/// How many tints of each plate change.
fn slow_differences(
    rt: &impl Abort,
    alloc: Global,
    before: &[Plane],
    after: &[Plane],
) -> CountList {
    let mut counts = List::new(alloc);
    for (old, new) in before.iter().zip(after) {
        put(
            rt,
            &mut counts,
            differences(old.tints.as_slice(), new.tints.as_slice()),
        );
    }
    counts
}

fn differences(before: &[u16], after: &[u16]) -> u64 {
    let both = before.iter().zip(after);
    both.filter(|(a, b)| **a != **b).count() as u64
}

/// The planes and the counts of the page after trapping.
pub fn slow_traps(rt: &impl Abort, alloc: Global, page: &Page) -> Trapped {
    let zones = zones_of(rt, alloc, page);
    traps_by_zones(rt, alloc, page, zones.as_slice())
}

fn traps_by_zones(rt: &impl Abort, alloc: Global, page: &Page, zones: &[u8]) -> Trapped
    requires { zones.now ≡ sample_zones page.now }
{
    let edges = deciding_edges(rt, alloc, page, zones);
    traps_by_edges(rt, alloc, page, zones, edges.as_slice())
}

fn traps_by_edges(
    rt: &impl Abort,
    alloc: Global,
    page: &Page,
    zones: &[u8],
    edges: &[EdgeAt],
) -> Trapped
    requires zones { zones.now ≡ sample_zones page.now }
    requires edges { All (IsEdge page.now) edges.now }
{
    let deciders = slow_deciders(rt, alloc, page, edges);
    traps_by_deciders(
        rt,
        alloc,
        page,
        zones,
        deciders.as_slice(),
        edges.len() as u64,
    )
}

/// Does the same with the number of deciding edges given.
fn traps_by_deciders(
    rt: &impl Abort,
    alloc: Global,
    page: &Page,
    zones: &[u8],
    deciders: &[Option<EdgeAt>],
    edges: u64,
) -> Trapped
    requires zones { zones.now ≡ sample_zones page.now }
    requires count { length deciders.now ≡ samples page.now }
    requires edges { All (λ decider. ForSome decider (IsEdge page.now)) deciders.now }
{
    let planes = slow_planes(rt, alloc, page, zones, deciders);
    let changes = slow_changes(rt, alloc, page, zones, deciders);
    let counts = Counts {
        zone_samples: slow_samples(rt, alloc, page, zones),
        zone_changed: slow_changed(rt, alloc, page, zones, changes.as_slice()),
        edges,
        plate_changed: slow_differences(rt, alloc, page.planes().as_slice(), planes.as_slice()),
    };
    Trapped { planes, counts }
}

fn same_plane(one: &Plane, two: &Plane) -> bool {
    one.width == two.width
        && one.height == two.height
        && one.maxval == two.maxval
        && one.tints.as_slice() == two.tints.as_slice()
}

fn same_planes(one: &[Plane], two: &[Plane]) -> bool {
    one.len() == two.len() && one.iter().zip(two).all(|(a, b)| same_plane(a, b))
}

fn same_counts(one: &Counts, two: &Counts) -> bool {
    one.zone_samples.as_slice() == two.zone_samples.as_slice()
        && one.zone_changed.as_slice() == two.zone_changed.as_slice()
        && one.edges == two.edges
        && one.plate_changed.as_slice() == two.plate_changed.as_slice()
}

/// Whether all planes and all counts are the same.
pub fn same_traps(one: &Trapped, two: &Trapped) -> bool {
    same_planes(one.planes.as_slice(), two.planes.as_slice())
        && same_counts(&one.counts, &two.counts)
}
