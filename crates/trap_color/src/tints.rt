ghost use Rattle.std.specs.Prelude.{◌≡◌, ◌<◌, ◌^◌, true, length};
ghost use Rattle.page_model.specs.Density.{density, spreads};
ghost use Rattle.page_model.specs.Edges.{IsEdge};
ghost use Rattle.page_model.specs.Page.{plates, InPage, ink_at, params_at};
ghost use Rattle.page_model.specs.Limits.{scale};
ghost use Rattle.page_model.specs.Tints.{full, full_density, new_in};
ghost use Rattle.page_model.specs.Trapped.{trapped_in};

use crate::widths::scaled_tint;
use neutral_density::weight_of;
use page_model::edges::across_of;
use page_model::laws::full_density_law;
use page_model::page::Page;
use page_model::parts::{At, EdgeAt};

fn spreads_at(page: &Page, c: u32) -> bool
    requires { c < plates page.now }
    ensures { result ≡ spreads (ink_at page.now c).kind }
{
    page.ink(c).kind.spreads()
}

/// The full tint of plate c at p: that of the inks of both sides of the edge printed one over the other.
fn full_at(page: &Page, p: At, e: EdgeAt, c: u32) -> u16
    requires sample { InPage page.now p }
    requires edge { IsEdge page.now e }
    requires plate { c < plates page.now }
    ensures { result ≡ full page.now p e c }
{
    let _valid = page.plates();
    let here = page.tint(c, p.x, p.y);
    let across = across_of(p, e);
    let there = page.tint(c, across.x, across.y);
    if spreads_at(page, c) {
        here.max(there)
    } else {
        here
    }
}

/// The neutral density of the full tints of p at the edge.
pub fn density_of_full(page: &Page, p: At, e: EdgeAt) -> u64
    requires sample { InPage page.now p }
    requires edge { IsEdge page.now e }
    ensures value { result ≡ full_density page.now p e }
    ensures bound { result < 2 ^ 40 }
{
    let mut total = 0;
    for c in 0..page.plates() {
        total += u64::from(weight_of(page, c)) * u64::from(full_at(page, p, e, c));
    }
    total
}

/// The densities of a sample's tints and of its full tints.
#[derive(Clone, Copy)]
pub struct Densities {
    pub here: u64,
    pub there: u64,
}

/// The new tint of plate c at p, which lies in the zone, with e as its decider.
#[tactic(auto, unfolding(page_model::specs::Tints::new_in))]
pub fn new_at(
    page: &Page,
    zone: u32,
    p: At,
    e: EdgeAt,
    c: u32,
    trapped: bool,
    densities: Densities,
) -> u16
    requires sample { InPage page.now p }
    requires edge { IsEdge page.now e }
    requires zone { zone < length page.now.zones }
    requires plate { c < plates page.now }
    requires trapped { trapped ≡ trapped_in page.now zone p e }
    requires here { densities.here ≡ density page.now p }
    requires there { densities.there ≡ full_density page.now p e }
    requires bound { densities.there < 2 ^ 40 }
    ensures { result ≡ new_in page.now zone p e c }
{
    let _valid = page.plates();
    full_density_law(page, p, e);
    if trapped && spreads_at(page, c) {
        let scaling = page.params(zone).trap_color_scaling;
        let full = full_at(page, p, e, c);
        scaled_tint(full, densities.here, densities.there, scaling)
    } else {
        page.tint(c, p.x, p.y)
    }
}

/// The new tint of plate c at p, trapped by e, where the zone scales tints by 1: its full tint.
pub fn full_new(page: &Page, zone: u32, p: At, e: EdgeAt, c: u32) -> u16
    requires sample { InPage page.now p }
    requires edge { IsEdge page.now e }
    requires plate { c < plates page.now }
    requires trapped { trapped_in page.now zone p e ≡ true }
    requires whole { (params_at page.now zone).trap_color_scaling ≡ scale }
    ensures { result ≡ new_in page.now zone p e c }
{
    full_density_law(page, p, e);
    full_at(page, p, e, c)
}
