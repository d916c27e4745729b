ghost use Rattle.std.specs.Prelude.{◌≡◌, true, false, MatchOption};
ghost use Rattle.job_parts.specs.Paths.{is_near, vertex_at, offset_point};

use page_model::bounds::MOST_COORDINATE;
use page_model::parts::Vertex;

/// A point of the page, in ten-thousandths of a point (1/72 inch) from its lower left corner.
#[derive(Clone, Copy, Debug, Drop, PartialEq, Eq)]
pub struct Point {
    pub x: i64,
    pub y: i64,
}

/// The state of a path that is drawn on: the first point of its last subpath, its current point, and whether the
/// subpath is closed, so that the next line begins another.
#[derive(Clone, Copy, Debug, Drop, PartialEq, Eq)]
pub struct Pen {
    pub first: Point,
    pub at: Point,
    pub closed: bool,
}

/// Whether a point is at most a million points from the origin in x and in y.
pub fn is_near(point: Point) -> bool
    ensures { result ≡ is_near point }
{
    point.x.unsigned_abs() <= MOST_COORDINATE && point.y.unsigned_abs() <= MOST_COORDINATE
}

/// The vertex at a point. `starts` says whether it begins a subpath.
pub fn vertex_at(point: Point, starts: bool) -> Vertex
    ensures { result ≡ vertex_at point starts }
{
    Vertex {
        x: point.x,
        y: point.y,
        starts,
    }
}

/// `point`, which is near by `is_near`, moved by `dx` and `dy`. `None` is answered only where the moved point is not
/// near; whether one that is answered is near is left to the caller.
pub fn offset_point(point: Point, dx: i64, dy: i64) -> Option<Point>
    requires { is_near point ≡ true }
    ensures { MatchOption result (is_near (offset_point point dx dy) ≡ false)
        (λ p. p ≡ offset_point point dx dy) }
{
    if dx.unsigned_abs() > 2 * MOST_COORDINATE || dy.unsigned_abs() > 2 * MOST_COORDINATE {
        return None;
    }
    Some(Point {
        x: point.x + dx,
        y: point.y + dy,
    })
}
