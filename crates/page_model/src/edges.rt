ghost use Rattle.std.specs.Prelude.{◌≡◌, ◌+◌, ◌<◌, ◌^◌, ◌*◌};
ghost use Rattle.page_model.specs.Edges.{first, second, on_first_side, own, across, d2};
ghost use Rattle.page_model.specs.Limits.{most_side};
ghost use Rattle.lists.specs.Words.{gap, square};

use crate::parts::{At, EdgeAt};

/// The sample to the left of an edge, or above it.
pub fn first_of(e: EdgeAt) -> At
    ensures { result ≡ first e }
{
    At {
        x: e.x2 / 2,
        y: e.y2 / 2,
    }
}

/// The sample to the right of an edge, or below it.
pub fn second_of(e: EdgeAt) -> At
    requires x { e.x2 < 2 * most_side }
    requires y { e.y2 < 2 * most_side }
    ensures { result ≡ second e }
{
    At {
        x: e.x2.div_ceil(2),
        y: e.y2.div_ceil(2),
    }
}

fn is_on_first_side(p: At, e: EdgeAt) -> bool
    requires x { p.x < most_side }
    requires y { p.y < most_side }
    ensures { result ≡ on_first_side p e }
{
    if e.x2 % 2 == 1 {
        2 * p.x < e.x2
    } else {
        2 * p.y < e.y2
    }
}

/// Of an edge's two samples, the one on the side of `p`.
pub fn own_of(p: At, e: EdgeAt) -> At
    requires px { p.x < most_side }
    requires py { p.y < most_side }
    requires ex { e.x2 < 2 * most_side }
    requires ey { e.y2 < 2 * most_side }
    ensures { result ≡ own p e }
{
    if is_on_first_side(p, e) {
        first_of(e)
    } else {
        second_of(e)
    }
}

/// Of an edge's two samples, the one on the side across from `p`.
pub fn across_of(p: At, e: EdgeAt) -> At
    requires px { p.x < most_side }
    requires py { p.y < most_side }
    requires ex { e.x2 < 2 * most_side }
    requires ey { e.y2 < 2 * most_side }
    ensures { result ≡ across p e }
{
    if is_on_first_side(p, e) {
        second_of(e)
    } else {
        first_of(e)
    }
}

fn square_of_gap(a: u32, b: u32) -> u32
    requires a { a < 2 * most_side }
    requires b { b < 2 * most_side }
    ensures value { result ≡ square (gap a b) }
    ensures bound { result < 2 ^ 30 }
{
    let away = a.abs_diff(b);
    away * away
}

/// The squared distance of the middle of sample `p` from the edge, in half-samples.
pub fn squared_distance(p: At, e: EdgeAt) -> u32
    requires px { p.x < most_side }
    requires py { p.y < most_side }
    requires ex { e.x2 < 2 * most_side }
    requires ey { e.y2 < 2 * most_side }
    ensures { result ≡ d2 p e }
{
    square_of_gap(e.x2, 2 * p.x) + square_of_gap(e.y2, 2 * p.y)
}
