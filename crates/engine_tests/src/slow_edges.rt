// The deciding edges of a page, for tests: each point of the doubled grid is judged by itself, ink against ink, as the rule is
// worded. Of the crates that the engine goes by nothing is used here; the zones of the samples are handed in.

ghost use Rattle.std.specs.Prelude.{◌≡◌, ◌<◌, ◌≤◌, ◌+◌, ◌*◌, All, length};
ghost use Rattle.page_model.specs.Edges.{IsEdge};
ghost use Rattle.page_model.specs.Page.{InPage, plates, width};
ghost use Rattle.page_model.specs.Zones.{zone_of};
ghost use Rattle.strip_engine.specs.Whole.{sample_zones};

use crate::memory::put;
use crate::reads::zone_number;
use lists::list::List;
use page_model::edges::{first_of, second_of};
use page_model::laws::zone_law;
use page_model::page::Page;
use page_model::parts::{At, EdgeAt};
use std::alloc::Global;
use std::process::Abort;

/// The zone of a sample, from the zones of all.
#[tactic(auto, using(strip_engine::proofs::WholeLemmas::places))]
pub fn zone_among(page: &Page, zones: &[u8], p: At) -> u32
    requires sample { InPage page.now p }
    requires zones { zones.now ≡ sample_zones page.now }
    ensures value { result ≡ zone_of page.now p }
    ensures known { result < length page.now.zones }
{
    zone_law(page, p);
    let width = page.width() as usize;
    let k = p.y as usize * width + p.x as usize;
    u32::from(zone_number(page, zones, k))
}

/// How many tints more of ink c lie on the one sample than on the other; 0 where the ink does not count.
fn more_of(page: &Page, c: u32, one: At, other: At) -> u64
    requires plate { c < plates page.now }
    requires one { InPage page.now one }
    requires other { InPage page.now other }
    ensures { result ≤ 65535 }
{
    let here = page.tint(c, one.x, one.y);
    let there = page.tint(c, other.x, other.y);
    if page.ink(c).kind.counts() {
        u64::from(here.saturating_sub(there))
    } else {
        0
    }
}

/// Whether a difference of `more` tints of ink c is a step in the zone.
fn is_step(page: &Page, zone: u32, c: u32, more: u64) -> bool
    requires zone { zone < length page.now.zones }
    requires plate { c < plates page.now }
    requires few { more ≤ 65535 }
{
    let least = u64::from(page.step_limit(zone, c)) * u64::from(page.maxval());
    more > 0 && more * 10_000 >= least
}

/// Whether ink b takes the place of ink a from the one sample to the other, each by a step in the zone.
fn takes_place(page: &Page, zone: u32, a: u32, b: u32, one: At, other: At) -> bool
    requires zone { zone < length page.now.zones }
    requires a { a < plates page.now }
    requires b { b < plates page.now }
    requires one { InPage page.now one }
    requires other { InPage page.now other }
{
    is_step(page, zone, a, more_of(page, a, one, other))
        && is_step(page, zone, b, more_of(page, b, other, one))
}

/// Whether some ink takes the place of ink a.
fn gives_way(page: &Page, zone: u32, a: u32, one: At, other: At) -> bool
    requires zone { zone < length page.now.zones }
    requires a { a < plates page.now }
    requires one { InPage page.now one }
    requires other { InPage page.now other }
{
    let mut found = false;
    for b in 0..page.plates() {
        found = takes_place(page, zone, a, b, one, other) || found;
    }
    found
}

/// Whether some ink gives way to another between the samples.
fn are_apart(page: &Page, zone: u32, one: At, other: At) -> bool
    requires zone { zone < length page.now.zones }
    requires one { InPage page.now one }
    requires other { InPage page.now other }
{
    let mut found = false;
    for a in 0..page.plates() {
        found = gives_way(page, zone, a, one, other) || found;
    }
    found
}

/// Whether an ink lies on the sample that shuts it.
fn is_covered(page: &Page, p: At) -> bool
    requires { InPage page.now p }
{
    let mut found = false;
    for c in 0..page.plates() {
        found = page.ink(c).kind.shuts() && page.tint(c, p.x, p.y) > 0 || found;
    }
    found
}

/// Whether a trap may be made between p and its neighbour, as far as p and its zone say.
fn agrees(page: &Page, zones: &[u8], p: At, neighbour: At) -> bool
    requires sample { InPage page.now p }
    requires neighbour { InPage page.now neighbour }
    requires zones { zones.now ≡ sample_zones page.now }
{
    let zone = zone_among(page, zones, p);
    !is_covered(page, p) && page.params(zone).enabled && are_apart(page, zone, p, neighbour)
}

/// Whether the edge decides: both its sides agree.
fn decides_at(page: &Page, zones: &[u8], e: EdgeAt) -> bool
    requires edge { IsEdge page.now e }
    requires zones { zones.now ≡ sample_zones page.now }
{
    let _valid = page.plates();
    let one = first_of(e);
    let two = second_of(e);
    agrees(page, zones, one, two) && agrees(page, zones, two, one)
}

/// Adds the deciding edges of a column of the doubled grid.
fn add_column(rt: &impl Abort, page: &Page, zones: &[u8], x2: u32, edges: &mut List<EdgeAt>)
    requires zones { zones.now ≡ sample_zones page.now }
    requires column { x2 + 1 < 2 * width page.now }
    requires edges { All (IsEdge page.now) edges.old }
    ensures { All (IsEdge page.now) edges.new }
{
    for y2 in 0..2 * page.height() - 1 {
        let e = EdgeAt { x2, y2 };
        if (x2 + y2) % 2 == 1 && decides_at(page, zones, e) {
            put(rt, edges, e);
        }
    }
}

/// All deciding edges of the page.
pub fn deciding_edges(rt: &impl Abort, alloc: Global, page: &Page, zones: &[u8]) -> List<EdgeAt>
    requires zones { zones.now ≡ sample_zones page.now }
    ensures { All (IsEdge page.now) result }
{
    let mut edges = List::new(alloc);
    for x2 in 0..2 * page.width() - 1 {
        add_column(rt, page, zones, x2, &mut edges);
    }
    edges
}
