// The marks of a page, for tests: those of each sample are sought among all deciding edges.

ghost use Rattle.std.specs.Prelude.{◌≡◌};
ghost use Rattle.page_model.specs.Page.{InPage};
ghost use Rattle.strip_engine.specs.Whole.{sample_zones};

use crate::grid::{sample_of, samples_of};
use crate::memory::put;
use crate::slow_edges::deciding_edges;
use lists::list::List;
use page_model::page::Page;
use page_model::parts::{At, EdgeAt};
use std::alloc::Global;
use std::process::Abort;

/// The marks of p: 1 for the edge to its right and 2 for the one below it.
fn marks_at(page: &Page, p: At, edges: &[EdgeAt]) -> u8
    requires { InPage page.now p }
{
    let _valid = page.plates();
    let right = EdgeAt {
        x2: 2 * p.x + 1,
        y2: 2 * p.y,
    };
    let lower = EdgeAt {
        x2: 2 * p.x,
        y2: 2 * p.y + 1,
    };
    match (edges.contains(&right), edges.contains(&lower)) {
        (false, false) => 0,
        (true, false) => 1,
        (false, true) => 2,
        (true, true) => 3,
    }
}

/// The marks of all samples, row by row.
pub fn slow_marks(rt: &impl Abort, alloc: Global, page: &Page, zones: &[u8]) -> List<u8>
    requires { zones.now ≡ sample_zones page.now }
{
    let edges = deciding_edges(rt, alloc, page, zones);
    marks_among(rt, alloc, page, edges.as_slice())
}

fn marks_among(rt: &impl Abort, alloc: Global, page: &Page, edges: &[EdgeAt]) -> List<u8> {
    let mut marks = List::new(alloc);
    for k in 0..samples_of(page) {
        put(rt, &mut marks, marks_at(page, sample_of(page, k), edges));
    }
    marks
}
