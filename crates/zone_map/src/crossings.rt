ghost use Rattle.std.specs.Prelude.{◌≡◌, ℕ, ◌<◌, ◌≤◌, ◌+◌, ◌*◌, ◌+ℤ◌, ◌*ℤ◌, ◌-ℤ◌, int_lt, nat_abs, nat_lt, pos, true};
ghost use Rattle.page_model.specs.Conditions.{IsVertex};
ghost use Rattle.page_model.specs.Zones.{corner, lean};
ghost use Rattle.page_model.specs.Limits.{most_coordinate, most_resolution, scale};
ghost use Rattle.zone_map.specs.PagePoints.{middle, point, IsNear, furthest};

use page_model::parts::Vertex;

/// A point of the page, in ten-thousandths of a 72nd of an inch times the resolution, from the lower left corner.
#[derive(Clone, Copy, Debug, Drop)]
pub struct PagePoint {
    pub x: i64,
    pub y: i64,
}

/// A coordinate of a vertex, in the units of a point.
fn scaled(coordinate: i64, resolution: u32) -> i64
    requires coordinate { nat_abs coordinate ≤ most_coordinate }
    requires resolution { resolution ≤ most_resolution }
    ensures value { result ≡ coordinate *ℤ pos resolution }
    ensures bound { nat_abs result ≤ furthest }
{
    coordinate * i64::from(resolution)
}

/// The point of a vertex.
pub fn point_of(v: Vertex, resolution: u32) -> PagePoint
    requires vertex { IsVertex v }
    requires resolution { resolution ≤ most_resolution }
    ensures value { point result ≡ corner resolution v }
    ensures near { IsNear result }
{
    PagePoint {
        x: scaled(v.x, resolution),
        y: scaled(v.y, resolution),
    }
}

/// The difference of two coordinates.
fn difference(from: i64, to: i64) -> i64
    requires from { nat_abs from ≤ furthest }
    requires to { nat_abs to ≤ furthest }
    ensures value { result ≡ to -ℤ from }
    ensures bound { nat_abs result ≤ 2 * furthest }
{
    to - from
}

/// The product of two lengths on the page.
fn product(one: i64, two: i64) -> i128
    requires one { nat_abs one ≤ 2 * furthest }
    requires two { nat_abs two ≤ 2 * furthest }
    ensures value { result ≡ one *ℤ two }
    ensures bound { nat_abs result ≤ 4 * (furthest * furthest) }
{
    i128::from(one) * i128::from(two)
}

/// The x at which the line through a and b has height y, times the rise from a to b.
fn across_of(a: PagePoint, b: PagePoint, y: i64) -> i128
    requires a { IsNear a }
    requires b { IsNear b }
    requires y { nat_abs y ≤ furthest }
    ensures value { result ≡ ((b.x -ℤ a.x) *ℤ (y -ℤ a.y)) +ℤ (a.x *ℤ (b.y -ℤ a.y)) }
    ensures bound { nat_abs result ≤ 8 * (furthest * furthest) }
{
    let along = product(difference(a.x, b.x), difference(a.y, y));
    let aside = product(a.x, difference(a.y, b.y));
    along + aside
}

/// The number of samples of a row whose middles are left of an x, which is given times the rise.
fn samples_below(across: u128, rise: u64, width: u32) -> u32
    requires across { across ≤ 8 * (furthest * furthest) }
    requires rises { 0 < rise }
    requires rise { rise ≤ 2 * furthest }
    ensures bound { result ≤ width }
    ensures left { (x : ℕ) → x < width
        → nat_lt x result ≡ nat_lt ((2 * x + 1) * (36 * scale) * rise) across }
{
    let half = 360_000 * u128::from(rise);
    let count = (across + half - 1) / (2 * half);
    if count < u128::from(width) {
        count as u32
    } else {
        width
    }
}

/// The number of samples of a row, which has height y and `width` samples, whose middles are left of its crossing with
/// the rising segment from a to b.
pub fn samples_left_of(a: PagePoint, b: PagePoint, y: i64, width: u32) -> u32
    requires a { IsNear a }
    requires b { IsNear b }
    requires y { nat_abs y ≤ furthest }
    requires rising { int_lt a.y b.y ≡ true }
    ensures bound { result ≤ width }
    ensures left { (x : ℕ) → x < width
        → nat_lt x result ≡ int_lt (pos 0) (lean (point a) (point b) (middle x y)) }
{
    let across = across_of(a, b, y);
    let rise = difference(a.y, b.y).unsigned_abs();
    if across < 0 {
        0
    } else {
        samples_below(across.unsigned_abs(), rise, width)
    }
}
