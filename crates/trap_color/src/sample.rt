ghost use Rattle.std.specs.Prelude.{◌≡◌, ◌<◌, true, ℕ, length, slice_index};
ghost use Rattle.std.specs.Option.{ForSome};
ghost use Rattle.page_model.specs.Edges.{IsEdge};
ghost use Rattle.page_model.specs.Limits.{scale};
ghost use Rattle.page_model.specs.Page.{InPage, params_at, plates, tint};
ghost use Rattle.page_model.specs.Tints.{new_in, new_from};
ghost use Rattle.page_model.specs.Trapped.{trapped_in, trapped_by};
ghost use Rattle.page_model.specs.Zones.{zone_of};

use crate::tints::{Densities, density_of_full, full_new, new_at};
use crate::trapped::is_trapped;
use neutral_density::density;
use page_model::bounds::SCALE;
use page_model::laws::zone_law;
use page_model::page::Page;
use page_model::parts::{At, EdgeAt};

/// Writes the new tints of p, trapped by e, where the zone scales them by 1: they are its full tints, and no density is
/// summed.
fn put_full(page: &Page, zone: u32, p: At, e: EdgeAt, out: &mut [u16])
    requires sample { InPage page.now p }
    requires edge { IsEdge page.now e }
    requires trapped { trapped_in page.now zone p e ≡ true }
    requires whole { (params_at page.now zone).trap_color_scaling ≡ scale }
    requires out { length out.old ≡ plates page.now }
    ensures len { length out.new ≡ plates page.now }
    ensures tints { (c : ℕ) → c < plates page.now
        → slice_index out.new c ≡ new_in page.now zone p e c }
{
    for c in 0..page.plates() {
        out[c as usize] = full_new(page, zone, p, e, c);
    }
}

/// Writes the new tints of p, trapped by e.
fn put_scaled(page: &Page, zone: u32, p: At, e: EdgeAt, out: &mut [u16])
    requires sample { InPage page.now p }
    requires edge { IsEdge page.now e }
    requires zone { zone < length page.now.zones }
    requires trapped { trapped_in page.now zone p e ≡ true }
    requires out { length out.old ≡ plates page.now }
    ensures len { length out.new ≡ plates page.now }
    ensures tints { (c : ℕ) → c < plates page.now
        → slice_index out.new c ≡ new_in page.now zone p e c }
{
    let densities = Densities {
        here: density(page, p),
        there: density_of_full(page, p, e),
    };
    for c in 0..page.plates() {
        out[c as usize] = new_at(page, zone, p, e, c, true, densities);
    }
}

/// Writes the new tints of p with e as its decider, and returns whether p is trapped.
fn trap_by(page: &Page, zone: u32, p: At, e: EdgeAt, out: &mut [u16]) -> bool
    requires sample { InPage page.now p }
    requires edge { IsEdge page.now e }
    requires zone { zone < length page.now.zones }
    requires out { length out.old ≡ plates page.now }
    ensures trapped { result ≡ trapped_in page.now zone p e }
    ensures len { length out.new ≡ plates page.now }
    ensures tints { (c : ℕ) → c < plates page.now
        → slice_index out.new c ≡ new_in page.now zone p e c }
{
    let trapped = is_trapped(page, zone, p, e);
    if !trapped {
        keep_tints(page, p, out);
        return false;
    }
    if page.params(zone).trap_color_scaling == SCALE {
        put_full(page, zone, p, e, out);
    } else {
        put_scaled(page, zone, p, e, out);
    }
    true
}

fn keep_tints(page: &Page, p: At, out: &mut [u16])
    requires sample { InPage page.now p }
    requires out { length out.old ≡ plates page.now }
    ensures len { length out.new ≡ plates page.now }
    ensures tints { (c : ℕ) → c < plates page.now → slice_index out.new c ≡ tint page.now c p }
{
    for c in 0..page.plates() {
        out[c as usize] = page.tint(c, p.x, p.y);
    }
}

/// Writes the new tints of p, one for each plate, with the given edge as its decider, and returns whether p is trapped.
/// Without an edge p keeps its tints. `zone` is the zone of p.
pub fn trap_sample(page: &Page, p: At, zone: u32, nearest: Option<EdgeAt>, out: &mut [u16]) -> bool
    requires sample { InPage page.now p }
    requires zone { zone ≡ zone_of page.now p }
    requires edge { ForSome nearest (λ e. IsEdge page.now e) }
    requires out { length out.old ≡ plates page.now }
    ensures trapped { result ≡ trapped_by page.now p nearest }
    ensures len { length out.new ≡ plates page.now }
    ensures tints { (c : ℕ) → c < plates page.now
        → slice_index out.new c ≡ new_from page.now p c nearest }
{
    zone_law(page, p);
    match nearest {
        Some(e) => trap_by(page, zone, p, e, out),
        None => {
            keep_tints(page, p, out);
            false
        }
    }
}
