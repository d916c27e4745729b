ghost use Rattle.std.specs.Prelude.{◌≡◌, ◌≤◌, ◌++◌, ◌∷◌, [], length, MatchResult};
ghost use Rattle.page_model.specs.Conditions.{IsPath};
ghost use Rattle.job_parts.specs.Paths.{nothing_drawn, moveto, lineto, rmoveto, rlineto, closepath, begun_at, lined_to};
ghost use Rattle.job_parts.specs.CommonErrors.{Draws, Extends};
ghost use Rattle.page_model.specs.Limits.{most_vertices};

use crate::pen::{Pen, Point, is_near, offset_point, vertex_at};
use lists::list::List;
use page_model::bounds::MOST_VERTICES;
use page_model::parts::{OutOfMemory, Vertex, VertexList};
use ps_tokens::faults::FaultKind;
use std::alloc::Global;
use std::marker::Model;

/// Why a path statement was not drawn.
#[derive(Clone, Copy, Debug, Drop, PartialEq, Eq)]
pub enum PathError {
    Fault(FaultKind),
    OutOfMemory,
}

/// The current path (PLRM3, section 4.4): subpaths of straight lines, which `settrapzone` makes a zone of. Contracts
/// see its vertices and its pen.
#[derive(Drop)]
pub struct Path {
    alloc: Global,
    vertices: Vec<Vertex>,
    pen: Option<Pen>,
}

impl Model for Path {
    ghost use Rattle.job_parts.specs.Paths.{Drawing, IsDrawing};

    ghost Value = { Drawing };

    ghost view = { λ p. record { vertices = p.vertices.items; pen = p.pen } };

    ghost invariant = { λ p. IsDrawing (record { vertices = p.vertices.items; pen = p.pen }) };
}

impl Path {
    /// The empty path.
    pub fn new(alloc: Global) -> Path
        ensures { result ≡ nothing_drawn }
    {
        Path {
            alloc,
            vertices: Vec::new(alloc),
            pen: None,
        }
    }

    /// How many vertices the path has.
    pub fn len(&self) -> usize
        ensures value { result ≡ length self.now.vertices }
        ensures path { IsPath self.now.vertices }
    {
        self.vertices.len()
    }

    /// `moveto`: begins a subpath with one vertex, in ten-thousandths of a point (PLRM3, section 8.2).
    ///
    /// `CoordinateRange` where a coordinate is more than a million points from the origin; then `TooManyVertices` where
    /// the path would have more than 4,096. An error leaves the path as it was.
    pub fn moveto(&mut self, x: i64, y: i64) -> Result<(), PathError>
        ensures { Draws result self.old self.new (moveto x y self.old) }
    {
        let pen = begin(&mut self.vertices, Point { x, y })?;
        self.pen = Some(pen);
        Ok(())
    }

    /// `rmoveto`: begins a subpath at the current point moved by `dx` and `dy` (PLRM3, section 8.2).
    ///
    /// `NoCurrentPoint` where the path has none, and then the faults of `moveto`.
    pub fn rmoveto(&mut self, dx: i64, dy: i64) -> Result<(), PathError>
        ensures { Draws result self.old self.new (rmoveto dx dy self.old) }
    {
        let Some(pen) = self.pen else {
            return Err(PathError::Fault(FaultKind::NoCurrentPoint));
        };
        match offset_point(pen.at, dx, dy) {
            Some(point) => self.moveto(point.x, point.y),
            None => Err(PathError::Fault(FaultKind::CoordinateRange)),
        }
    }

    /// `lineto`: adds a vertex, in ten-thousandths of a point (PLRM3, section 8.2). After `close` it first begins a
    /// subpath at the current point.
    ///
    /// `NoCurrentPoint` where the path has none, and then the faults of `moveto`.
    pub fn lineto(&mut self, x: i64, y: i64) -> Result<(), PathError>
        ensures { Draws result self.old self.new (lineto x y self.old) }
    {
        let Some(pen) = self.pen else {
            return Err(PathError::Fault(FaultKind::NoCurrentPoint));
        };
        let pen = draw_line(&mut self.vertices, pen, Point { x, y })?;
        self.pen = Some(pen);
        Ok(())
    }

    /// `rlineto`: adds a vertex at the current point moved by `dx` and `dy` (PLRM3, section 8.2). After `close` it
    /// first begins a subpath at the current point.
    ///
    /// `NoCurrentPoint` where the path has none, and then the faults of `moveto`.
    pub fn rlineto(&mut self, dx: i64, dy: i64) -> Result<(), PathError>
        ensures { Draws result self.old self.new (rlineto dx dy self.old) }
    {
        let Some(pen) = self.pen else {
            return Err(PathError::Fault(FaultKind::NoCurrentPoint));
        };
        match offset_point(pen.at, dx, dy) {
            Some(point) => self.lineto(point.x, point.y),
            None => Err(PathError::Fault(FaultKind::CoordinateRange)),
        }
    }

    /// `closepath`: closes the subpath; the current point is then its first point. Without a current point nothing
    /// changes (PLRM3, section 8.2).
    pub fn close(&mut self)
        ensures { self.new ≡ closepath self.old }
    {
        if let Some(pen) = self.pen {
            self.pen = Some(Pen {
                first: pen.first,
                at: pen.first,
                closed: true,
            });
        }
    }

    /// `newpath`: empties the path (PLRM3, section 8.2).
    pub fn clear(&mut self)
        ensures { self.new ≡ nothing_drawn }
    {
        self.vertices.clear();
        self.pen = None;
    }

    /// Returns the vertices, and leaves the path empty.
    pub fn take(&mut self) -> VertexList
        ensures vertices { result ≡ self.old.vertices }
        ensures path { IsPath result }
        ensures emptied { self.new ≡ nothing_drawn }
    {
        let vertices = std::mem::replace(&mut self.vertices, Vec::new(self.alloc));
        self.pen = None;
        List::from_vec(vertices)
    }
}

// Begins a subpath at a point.
#[tactic(auto, unfolding(crate::specs::Paths::begun_at))]
fn begin(vertices: &mut Vec<Vertex>, point: Point) -> Result<Pen, PathError>
    requires { length vertices.old.items ≤ most_vertices }
    ensures { Extends result vertices.old.items vertices.new.items
        (begun_at vertices.old.items point) }
{
    if !is_near(point) {
        return Err(PathError::Fault(FaultKind::CoordinateRange));
    }
    if vertices.len() + 1 > MOST_VERTICES {
        return Err(PathError::Fault(FaultKind::TooManyVertices));
    }
    match vertices.push(vertex_at(point, true)) {
        Ok(()) => Ok(Pen {
            first: point,
            at: point,
            closed: false,
        }),
        Err(_) => Err(PathError::OutOfMemory),
    }
}

// Draws a line to a point.
#[tactic(auto, unfolding(crate::specs::Paths::lined_to))]
fn draw_line(vertices: &mut Vec<Vertex>, pen: Pen, point: Point) -> Result<Pen, PathError>
    requires { length vertices.old.items ≤ most_vertices }
    ensures { Extends result vertices.old.items vertices.new.items
        (lined_to vertices.old.items pen point) }
{
    if !is_near(point) {
        return Err(PathError::Fault(FaultKind::CoordinateRange));
    }
    let more = if pen.closed { 2 } else { 1 };
    if vertices.len() + more > MOST_VERTICES {
        return Err(PathError::Fault(FaultKind::TooManyVertices));
    }
    let added = if pen.closed {
        push_both(vertices, vertex_at(pen.at, true), vertex_at(point, false))
    } else {
        push(vertices, vertex_at(point, false))
    };
    match added {
        Ok(()) => Ok(Pen {
            first: pen.first,
            at: point,
            closed: false,
        }),
        Err(OutOfMemory) => Err(PathError::OutOfMemory),
    }
}

// Adds a vertex, or nothing.
fn push(vertices: &mut Vec<Vertex>, vertex: Vertex) -> Result<(), OutOfMemory>
    ensures { MatchResult result (λ _. vertices.new.items ≡ vertices.old.items ++ vertex ∷ [])
        (λ _. vertices.new.items ≡ vertices.old.items) }
{
    match vertices.push(vertex) {
        Ok(()) => Ok(()),
        Err(_) => Err(OutOfMemory),
    }
}

// Adds two vertices, or nothing.
fn push_both(vertices: &mut Vec<Vertex>, one: Vertex, two: Vertex) -> Result<(), OutOfMemory>
    ensures { MatchResult result (λ _. vertices.new.items ≡ vertices.old.items ++ one ∷ two ∷ [])
        (λ _. vertices.new.items ≡ vertices.old.items) }
{
    let len = vertices.len();
    push(vertices, one)?;
    match push(vertices, two) {
        Ok(()) => Ok(()),
        Err(OutOfMemory) => {
            vertices.truncate(len);
            Err(OutOfMemory)
        }
    }
}
