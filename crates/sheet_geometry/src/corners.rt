// How far a window's lower left corner is from its sheet's, and what that does to a vertex.

ghost use Rattle.std.specs.Prelude.{◌≡◌, ◌+◌, ◌-◌, ◌<◌, ◌≤◌, ◌^◌};
ghost use Rattle.page_model.specs.Conditions.{IsVertex};
ghost use Rattle.sheet_geometry.specs.Windows.{moved_vertex, points_of};

use crate::cuts::Cut;
use page_model::parts::Vertex;

/// How far to the right of its sheet's lower left corner a window's is, and how far up, in ten-thousandths of a point.
#[derive(Clone, Copy, Drop)]
pub struct Corner {
    pub right: u64,
    pub up: u64,
}

/// A length in samples, in ten-thousandths of a point, rounded down; 0 at resolution 0.
pub fn points(resolution: u32, samples: u32) -> u64
    requires { samples < 2 ^ 30 }
    ensures value { result ≡ points_of resolution samples }
    ensures few { result < 2 ^ 50 }
{
    let length = 720_000 * u64::from(samples);
    if resolution == 0 {
        0
    } else {
        length / u64::from(resolution)
    }
}

/// Where a window's lower left corner is on a sheet with so many samples per inch and so many rows.
pub fn corner_of(resolution: u32, rows: u32, cut: &Cut) -> Corner
    requires narrow { cut.now.left < 2 ^ 30 }
    requires low { rows < 2 ^ 30 }
    requires down { cut.now.top + cut.now.height ≤ rows }
    ensures right { result.right ≡ points_of resolution cut.now.left }
    ensures up { result.up ≡ points_of resolution (rows - (cut.now.top + cut.now.height)) }
    ensures few_right { result.right < 2 ^ 50 }
    ensures few_up { result.up < 2 ^ 50 }
{
    let below = rows - (cut.top + cut.height);
    Corner {
        right: points(resolution, cut.left),
        up: points(resolution, below),
    }
}

/// The vertex as seen from a corner that is `right` and `up` away, in ten-thousandths of a point.
pub fn vertex_of(vertex: &Vertex, right: u64, up: u64) -> Vertex
    requires vertex { IsVertex vertex.now }
    requires right { right < 2 ^ 50 }
    requires up { up < 2 ^ 50 }
    ensures { result ≡ moved_vertex right up vertex.now }
{
    Vertex {
        x: vertex.x - right as i64,
        y: vertex.y - up as i64,
        starts: vertex.starts,
    }
}
