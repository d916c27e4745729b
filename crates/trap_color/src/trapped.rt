ghost use Rattle.std.specs.Prelude.{◌≡◌, ◌<◌, ◌&&◌, ◌==◌, false, length};
ghost use Rattle.page_model.specs.Density.{density};
ghost use Rattle.page_model.specs.Edges.{IsEdge, across, own};
ghost use Rattle.page_model.specs.Page.{InPage, params_at};
ghost use Rattle.page_model.specs.Trapped.{trapped_in};
ghost use Rattle.page_model.specs.Within.{black, black_sample, edge_slid, within_in};
ghost use Rattle.trap_color.specs.There.{is_trapped_there};

use crate::widths::is_near;
use neutral_density::{densities, is_black, is_shut, slid, steps_apart};
use page_model::bounds::SCALE;
use page_model::edges::{across_of, own_of, squared_distance};
use page_model::page::Page;
use page_model::parts::{At, EdgeAt, TrapParams};

/// The densities of an edge's two samples, on the side of a third sample and across from it, summed once for all tests.
#[derive(Clone, Copy)]
struct Sides {
    own: u64,
    across: u64,
}

fn sides_of(page: &Page, p: At, e: EdgeAt) -> Sides
    requires sample { InPage page.now p }
    requires edge { IsEdge page.now e }
    ensures own { result.own ≡ density page.now (own p e) }
    ensures across { result.across ≡ density page.now (across p e) }
{
    let _valid = page.plates();
    let (own, across) = densities(page, own_of(p, e), across_of(p, e));
    Sides { own, across }
}

/// Whether a side has the density `most`, the greater one of the edge's two sides, and a black ink.
fn is_black_side(page: &Page, params: &TrapParams, side: At, density: u64, most: u64) -> bool
    requires sample { InPage page.now side }
    ensures { result ≡ ((density == most) && black_sample page.now params.now side) }
{
    density == most && is_black(page, params, side)
}

/// Whether a side of the edge's greater density has a black ink.
fn is_edge_black(page: &Page, params: &TrapParams, p: At, e: EdgeAt, sides: Sides) -> bool
    requires sample { InPage page.now p }
    requires edge { IsEdge page.now e }
    requires own { sides.own ≡ density page.now (own p e) }
    requires across { sides.across ≡ density page.now (across p e) }
    ensures { result ≡ black page.now params.now e }
{
    let _valid = page.plates();
    let most = sides.own.max(sides.across);
    let own = is_black_side(page, params, own_of(p, e), sides.own, most);
    own || is_black_side(page, params, across_of(p, e), sides.across, most)
}

#[tactic(auto, using(crate::proofs::SideLemmas::slid_sides))]
fn is_edge_slid(page: &Page, params: &TrapParams, p: At, e: EdgeAt, sides: Sides) -> bool
    requires own { sides.own ≡ density page.now (own p e) }
    requires across { sides.across ≡ density page.now (across p e) }
    ensures { result ≡ edge_slid page.now params.now e }
{
    let _valid = page.plates();
    slid(
        params,
        sides.own.min(sides.across),
        sides.own.max(sides.across),
    )
}

/// Whether p, in the zone, is within the widest trap of the edge, whether or not the edge is black or slid.
#[tactic(auto, using(crate::proofs::SideLemmas::beyond))]
fn may_reach(page: &Page, zone: u32, p: At, e: EdgeAt) -> bool
    requires sample { InPage page.now p }
    requires edge { IsEdge page.now e }
    requires zone { zone < length page.now.zones }
    ensures { result ≡ false → within_in page.now zone p e ≡ false }
{
    let params = page.params(zone);
    let factor = params.black_width.max(SCALE);
    let d2 = squared_distance(p, e);
    is_near(d2, false, params.trap_width, factor, page.resolution())
}

/// Whether the edge is near enough to trap p. If the black width and the plain one give the same answer, the edge is
/// not tested for black.
fn is_within(page: &Page, zone: u32, p: At, e: EdgeAt, sides: Sides, slid: bool) -> bool
    requires sample { InPage page.now p }
    requires edge { IsEdge page.now e }
    requires zone { zone < length page.now.zones }
    requires own { sides.own ≡ density page.now (own p e) }
    requires across { sides.across ≡ density page.now (across p e) }
    requires slid { slid ≡ edge_slid page.now (params_at page.now zone) e }
    ensures { result ≡ within_in page.now zone p e }
{
    let _valid = page.plates();
    let params = page.params(zone);
    let d2 = squared_distance(p, e);
    let resolution = page.resolution();
    let plain = is_near(d2, slid, params.trap_width, SCALE, resolution);
    let wide = is_near(d2, slid, params.trap_width, params.black_width, resolution);
    if plain == wide {
        plain
    } else if is_edge_black(page, params, p, e, sides) {
        wide
    } else {
        plain
    }
}

/// Whether the edge traps p, which lies in the zone, if the zone is enabled. The cheapest tests come first.
fn is_trapped_near(page: &Page, zone: u32, p: At, e: EdgeAt) -> bool
    requires sample { InPage page.now p }
    requires edge { IsEdge page.now e }
    requires zone { zone < length page.now.zones }
    ensures { result ≡ is_trapped_there page.now zone p e }
{
    let _valid = page.plates();
    let params = page.params(zone);
    let sides = sides_of(page, p, e);
    let slid = is_edge_slid(page, params, p, e, sides);
    (slid || sides.across < sides.own)
        && is_within(page, zone, p, e, sides, slid)
        && steps_apart(page, zone, p, across_of(p, e))
        && !is_shut(page, p)
}

/// Whether the edge traps p, which lies in the zone.
#[tactic(auto, using(crate::proofs::SideLemmas::trapped))]
pub fn is_trapped(page: &Page, zone: u32, p: At, e: EdgeAt) -> bool
    requires sample { InPage page.now p }
    requires edge { IsEdge page.now e }
    requires zone { zone < length page.now.zones }
    ensures { result ≡ trapped_in page.now zone p e }
{
    page.params(zone).enabled && may_reach(page, zone, p, e) && is_trapped_near(page, zone, p, e)
}
