ghost use Rattle.std.specs.Prelude.{◌≡◌, ◌&&◌, int_le, int_lt, true, ℕ, ◌<◌, ◌≤◌, ◌+◌, ◌+ℤ◌, All, if◌then◌else◌, length, nat_abs, nat_lt, sum};
ghost use Rattle.page_model.specs.Conditions.{IsVertex};
ghost use Rattle.page_model.specs.Zones.{turn, winding};
ghost use Rattle.page_model.specs.Limits.{most_resolution, most_vertices};
ghost use Rattle.zone_map.specs.PagePoints.{middle, point, IsNear, furthest};
ghost use Rattle.zone_map.specs.Subpaths.{segment_end, start_at};
ghost use Rattle.zone_map.specs.Tallies.{left, past};

use crate::crossings::{PagePoint, point_of, samples_left_of};
use page_model::parts::Vertex;

/// Counts a crossing with n samples left of it.
fn add_at(counts: &mut [u32], n: u32)
    requires place { n < length counts.old }
    requires few { sum counts.old ≤ most_vertices }
    ensures whole { sum counts.new ≡ sum counts.old + 1 }
    ensures past { (x : ℕ) → past counts.new x ≡ past counts.old x + (if nat_lt x n then 1 else 0) }
    ensures long { length counts.new ≡ length counts.old }
{
    counts[n as usize] += 1;
}

/// Whether the segment from a to b rises through the height y.
#[tactic(auto, using(crate::proofs::TurnTests::risings))]
fn rises_through(a: PagePoint, b: PagePoint, y: i64) -> bool
    ensures value { result ≡ (int_le a.y y && int_lt y b.y) }
    ensures rising { result ≡ true → int_lt a.y b.y ≡ true }
{
    a.y <= y && y < b.y
}

/// Counts the segment from a to b if it crosses the row at height y, upwards or downwards. Returns 1 if it does, else
/// 0.
fn note_segment(
    ups: &mut [u32],
    downs: &mut [u32],
    a: PagePoint,
    b: PagePoint,
    y: i64,
    width: u32,
) -> u32
    requires a { IsNear a }
    requires b { IsNear b }
    requires y { nat_abs y ≤ furthest }
    requires ups { length ups.old ≡ width + 1 }
    requires downs { length downs.old ≡ width + 1 }
    requires few { sum ups.old + sum downs.old ≤ most_vertices }
    ensures turned { (x : ℕ) → x < width
        → left ups.new downs.new x
        ≡ left ups.old downs.old x +ℤ turn (middle x y) (point a) (point b) }
    ensures count { sum ups.new + sum downs.new ≡ sum ups.old + sum downs.old + result }
    ensures one { result ≤ 1 }
    ensures ups { length ups.new ≡ width + 1 }
    ensures downs { length downs.new ≡ width + 1 }
{
    if rises_through(a, b, y) {
        add_at(ups, samples_left_of(a, b, y, width));
        1
    } else if rises_through(b, a, y) {
        add_at(downs, samples_left_of(b, a, y, width));
        1
    } else {
        0
    }
}

/// The end of the segment from the vertex before v: v, or the subpath's start where v begins another subpath.
fn segment_end(start: Vertex, v: Vertex) -> Vertex
    ensures { result ≡ segment_end start v }
{
    if v.starts { start } else { v }
}

/// The start of v's subpath.
fn start_at(start: Vertex, v: Vertex) -> Vertex
    ensures { result ≡ start_at start v }
{
    if v.starts { v } else { start }
}

/// Counts where the segments of a path, each subpath closed, cross the row at height y: in `ups[n]` the upward
/// crossings with n samples left of them, in `downs[n]` the downward ones. Returns how many crossings there are.
pub fn tally_path(
    ups: &mut [u32],
    downs: &mut [u32],
    path: &[Vertex],
    resolution: u32,
    y: i64,
    width: u32,
) -> u32
    requires few { length path.now ≤ most_vertices }
    requires path { All IsVertex path.now }
    requires resolution { resolution ≤ most_resolution }
    requires y { nat_abs y ≤ furthest }
    requires ups { length ups.old ≡ width + 1 }
    requires downs { length downs.old ≡ width + 1 }
    requires no_ups { sum ups.old ≡ 0 }
    requires no_downs { sum downs.old ≡ 0 }
    ensures turns { (x : ℕ) → x < width
        → left ups.new downs.new x ≡ winding resolution (middle x y) path.now }
    ensures count { sum ups.new + sum downs.new ≡ result }
    ensures few { result ≤ most_vertices }
    ensures ups { length ups.new ≡ width + 1 }
    ensures downs { length downs.new ≡ width + 1 }
{
    if path.is_empty() {
        return 0;
    }
    let first = path[0];
    let mut start = first;
    let mut last = first;
    let mut crossings = 0;
    for i in 1..path.len() {
        let v = path[i];
        let a = point_of(last, resolution);
        let b = point_of(segment_end(start, v), resolution);
        crossings += note_segment(ups, downs, a, b, y, width);
        start = start_at(start, v);
        last = v;
    }
    let a = point_of(last, resolution);
    let b = point_of(start, resolution);
    crossings + note_segment(ups, downs, a, b, y, width)
}
