ghost use Rattle.std.specs.Prelude.{◌≡◌, ◌<◌, ◌≤◌, ◌^◌};
ghost use Rattle.page_model.specs.Density.{density, weight};
ghost use Rattle.page_model.specs.Page.{plates, InPage, place, tint};
ghost use Rattle.page_model.specs.Limits.{most_ink_density};

use page_model::page::Page;
use page_model::parts::At;

/// The density that a unit of tint of plate c adds: its ink's neutral density in ten-thousandths, or 0 where the ink
/// does not count.
pub fn weight_of(page: &Page, c: u32) -> u32
    requires { c < plates page.now }
    ensures value { result ≡ weight page.now c }
    ensures bound { result ≤ most_ink_density }
{
    let ink = page.ink(c);
    if ink.kind.counts() { ink.density } else { 0 }
}

/// The index of a sample in the list of each plane.
fn place_of(page: &Page, p: At) -> usize
    requires { InPage page.now p }
    ensures { result ≡ place page.now p }
{
    p.y as usize * page.width() as usize + p.x as usize
}

/// The tint of plate c at p; `spot` is the index of p.
#[tactic(auto, using(page_model::proofs::PageLemmas::place_stored, page_model::proofs::PageLemmas::tint_at_most))]
fn tint_at(page: &Page, c: u32, p: At, spot: usize) -> u16
    requires plate { c < plates page.now }
    requires sample { InPage page.now p }
    requires spot { spot ≡ place page.now p }
    ensures { result ≡ tint page.now c p }
{
    let planes = page.planes().as_slice();
    let tints = planes[c as usize].tints.as_slice();
    tints[spot]
}

/// The neutral density of a sample: the sum over the inks that count of tint times density, the density in
/// ten-thousandths.
pub fn density(page: &Page, p: At) -> u64
    requires { InPage page.now p }
    ensures value { result ≡ density page.now p }
    ensures bound { result < 2 ^ 40 }
{
    let here = place_of(page, p);
    let mut total = 0;
    for c in 0..page.plates() {
        total += u64::from(weight_of(page, c)) * u64::from(tint_at(page, c, p, here));
    }
    total
}

/// The neutral densities of two samples, as `density` gives them, in one pass over the plates.
pub fn densities(page: &Page, p: At, q: At) -> (u64, u64)
    requires p { InPage page.now p }
    requires q { InPage page.now q }
    ensures p { result.0 ≡ density page.now p }
    ensures q { result.1 ≡ density page.now q }
{
    let (here, there) = (place_of(page, p), place_of(page, q));
    let mut one = 0;
    let mut two = 0;
    for c in 0..page.plates() {
        let weight = u64::from(weight_of(page, c));
        one += weight * u64::from(tint_at(page, c, p, here));
        two += weight * u64::from(tint_at(page, c, q, there));
    }
    (one, two)
}
