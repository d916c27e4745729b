// How thick ink is at a pixel.

ghost use Rattle.std.specs.Prelude.{◌≡◌, ◌+◌, ◌*◌, ◌<◌, ◌≤◌, ℕ};
ghost use Rattle.page_model.specs.Limits.{most_reach};
ghost use Rattle.page_model.specs.Page.{plates, InPage};
ghost use Rattle.underprint.specs.Lists.{Reaches};
ghost use Rattle.underprint.specs.Underprint.{ends_at as ends_spec, followed as followed_spec, run as run_spec, run_before, thickness as thickness_spec};

use crate::way::Way;
use page_model::page::Page;
use page_model::parts::At;

/// A pixel's side, in ten-thousandths of a point times the resolution.
const PIXEL: u64 = 720_000;

/// Whether plate c has no ink at the pixel that lies k + 1 pixels from p this way, and it is on the page.
fn ends_at(page: &Page, c: u32, p: At, way: Way, k: u32) -> bool
    requires plate { c < plates page.now }
    requires pixel { InPage page.now p }
    requires near { k ≤ 2 * most_reach }
    ensures { result ≡ ends_spec page.now c p way k }
{
    let (width, height) = (page.width(), page.height());
    match way {
        Way::Left => k < p.x && page.tint(c, p.x - (k + 1), p.y) == 0,
        Way::Right => p.x + (k + 1) < width && page.tint(c, p.x + (k + 1), p.y) == 0,
        Way::Above => k < p.y && page.tint(c, p.x, p.y - (k + 1)) == 0,
        Way::Below => p.y + (k + 1) < height && page.tint(c, p.x, p.y + (k + 1)) == 0,
    }
}

/// How far the ink of plate c goes on from p this way, as far as it is followed.
fn run(page: &Page, c: u32, p: At, way: Way, most: u32) -> u32
    requires plate { c < plates page.now }
    requires pixel { InPage page.now p }
    requires near { most ≤ 2 * most_reach }
    ensures value { result ≡ run_before (ends_spec page.now c p way) most }
    ensures bound { result ≤ most }
{
    for k in 0..most {
        if ends_at(page, c, p, way, k) {
            return k;
        }
    }
    most
}

/// How far a run of ink is followed.
fn followed(page: &Page, wide: u32) -> u32
    requires { Reaches page.now wide }
    ensures value { result ≡ followed_spec wide page.now.resolution }
    ensures bound { result ≤ 2 * most_reach }
{
    let reach = u64::from(wide) * u64::from(page.resolution());
    ((3 * reach + (PIXEL - 1)) / PIXEL) as u32
}

/// How thick the ink of plate c is at p, as far as it is followed.
pub(crate) fn thickness(page: &Page, wide: u32, c: u32, p: At) -> u32
    requires reach { Reaches page.now wide }
    requires plate { c < plates page.now }
    requires pixel { InPage page.now p }
    ensures value { result ≡ thickness_spec page.now wide c p }
    ensures bound { result ≤ 1 + 4 * most_reach }
{
    let most = followed(page, wide);
    let left = run(page, c, p, Way::Left, most);
    let right = run(page, c, p, Way::Right, most);
    let above = run(page, c, p, Way::Above, most);
    let below = run(page, c, p, Way::Below, most);
    1 + (left + right).min(above + below)
}
