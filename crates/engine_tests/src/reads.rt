// A read of the zones of all samples.

ghost use Rattle.std.specs.Prelude.{◌≡◌, ◌<◌};
ghost use Rattle.page_model.specs.Page.{samples, sample_at};
ghost use Rattle.page_model.specs.Zones.{zone_of};
ghost use Rattle.strip_engine.specs.Whole.{sample_zones};

use page_model::page::Page;

/// The zone of sample k.
#[tactic(auto, using(strip_engine::proofs::WholeLemmas::zone_reads))]
pub fn zone_number(page: &Page, zones: &[u8], k: usize) -> u8
    requires zones { zones.now ≡ sample_zones page.now }
    requires sample { k < samples page.now }
    ensures { result ≡ zone_of page.now (sample_at page.now k) }
{
    let _valid = page.plates();
    zones[k]
}
