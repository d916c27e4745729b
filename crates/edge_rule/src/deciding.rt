ghost use Rattle.std.specs.Prelude.{◌≡◌, ◌<◌, length};
ghost use Rattle.page_model.specs.Deciding.{decides, decides_in};
ghost use Rattle.page_model.specs.Edges.{IsEdge, first, second};
ghost use Rattle.page_model.specs.Page.{InPage};
ghost use Rattle.page_model.specs.Zones.{AreZones, zone_of};

use neutral_density::{is_shut, steps_apart};
use page_model::edges::{first_of, second_of};
use page_model::laws::zone_law;
use page_model::page::Page;
use page_model::parts::{At, EdgeAt};

/// The zone of a sample, from the zones of its row.
fn zone_in(page: &Page, zones: &[u8], p: At) -> u32
    requires sample { InPage page.now p }
    requires zones { AreZones page.now p.y zones.now }
    ensures value { result ≡ zone_of page.now p }
    ensures known { result < length page.now.zones }
{
    zone_law(page, p);
    u32::from(zones[p.x as usize])
}

/// Whether the edge decides, with its samples in zones a and b.
#[tactic(auto, unfolding(page_model::specs::Deciding::decides_in))]
fn decides_between(page: &Page, a: u32, b: u32, e: EdgeAt) -> bool
    requires edge { IsEdge page.now e }
    requires a { a < length page.now.zones }
    requires b { b < length page.now.zones }
    ensures { result ≡ decides_in page.now a b e }
{
    let _valid = page.plates();
    let one = first_of(e);
    let two = second_of(e);
    !is_shut(page, one)
        && !is_shut(page, two)
        && page.params(a).enabled
        && page.params(b).enabled
        && steps_apart(page, a, one, two)
        && steps_apart(page, b, one, two)
}

/// Whether the edge between samples p and q decides. The zones are those of p's row and of q's row.
#[tactic(auto, unfolding(page_model::specs::Deciding::decides))]
pub fn decides_at(page: &Page, p: At, p_zones: &[u8], q: At, q_zones: &[u8], e: EdgeAt) -> bool
    requires edge { IsEdge page.now e }
    requires first { first e ≡ p }
    requires second { second e ≡ q }
    requires p { InPage page.now p }
    requires q { InPage page.now q }
    requires p_zones { AreZones page.now p.y p_zones.now }
    requires q_zones { AreZones page.now q.y q_zones.now }
    ensures { result ≡ decides page.now e }
{
    let a = zone_in(page, p_zones, p);
    let b = zone_in(page, q_zones, q);
    decides_between(page, a, b, e)
}
