// How large a halo is enough.

ghost use Rattle.std.specs.Prelude.{◌≡◌, ◌+◌, ◌*◌, ◌<◌, ◌≤◌, ℕ, All};
ghost use Rattle.lists.specs.Words.{square};
ghost use Rattle.page_model.specs.Limits.{most_reach};
ghost use Rattle.keepaway.specs.Keepaway.{near_limit};
ghost use Rattle.underprint.specs.Underprint.{followed as followed_spec};
ghost use Rattle.keep_sheets.specs.KeepSheets.{AreNarrow, IsHalo, IsNarrow};

use keep_pages::KeepUse;
use page_model::bounds::MOST_REACH;
use underprint::White;

/// Half a pixel, in ten-thousandths of a point times the resolution.
const HALF: u64 = 360_000;

/// How far a run of ink is followed.
fn followed(resolution: u32, wide: u32) -> u32
    requires { IsNarrow resolution wide }
    ensures value { result ≡ followed_spec wide resolution }
    ensures few { result ≤ 2 * most_reach }
{
    let reach = u64::from(wide) * u64::from(resolution);
    ((3 * reach + (2 * HALF - 1)) / (2 * HALF)) as u32
}

/// The least number whose square is more than the limit.
#[tactic(auto, using(crate::proofs::HaloLemmas::root_next))]
fn root_above(limit: u32) -> u32
    requires { limit < square (most_reach + 1) }
    ensures above { limit < square result }
    ensures least { (n : ℕ) → limit < square n → result ≤ n }
    ensures few { result ≤ most_reach + 1 }
{
    let mut root = 0;
    for r in 0..MOST_REACH + 1 {
        if r * r <= limit {
            root = r + 1;
        }
    }
    root
}

/// The halo of a width under black.
fn under_black(resolution: u32, wide: u32) -> u32
    requires { IsNarrow resolution wide }
    ensures far { near_limit wide resolution < square result }
    ensures least { (n : ℕ) → near_limit wide resolution < square n → result ≤ n }
    ensures few { result ≤ 2 * most_reach }
{
    let reach = u64::from(wide) * u64::from(resolution) + HALF;
    root_above((reach * reach / (4 * HALF * HALF)) as u32)
}

/// The halo of underprints.
fn under_colour(resolution: u32, whites: &[White]) -> u32
    requires { All (λ (white : White). IsNarrow resolution white.width) whites.now }
    ensures some { 1 ≤ result }
    ensures far { All (λ (white : White). followed_spec white.width resolution ≤ result) whites.now }
    ensures least { (n : ℕ) → 1 ≤ n
        → All (λ (white : White). followed_spec white.width resolution ≤ n) whites.now → result ≤ n }
    ensures few { result ≤ 2 * most_reach }
{
    match whites {
        [first, rest @ ..] => followed(resolution, first.width).max(under_colour(resolution, rest)),
        [] => 1,
    }
}

/// The least number of pixels that is enough of a halo for what is drawn back, at this resolution.
pub fn halo_of(resolution: u32, used: &KeepUse) -> u32
    requires { AreNarrow resolution used.now }
    ensures enough { IsHalo resolution used.now result }
    ensures least { (n : ℕ) → IsHalo resolution used.now n → result ≤ n }
    ensures few { result ≤ 2 * most_reach }
{
    match used {
        KeepUse::UnderBlack(rich) => under_black(resolution, rich.width),
        KeepUse::UnderColour(whites) => under_colour(resolution, whites.as_slice()),
    }
}
