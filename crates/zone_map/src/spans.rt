ghost use Rattle.std.specs.Prelude.{◌≡◌, ℕ, ◌<◌, ◌≤◌, ◌+◌, IfOk, if◌then◌else◌, length, pos, slice_index, sum};
ghost use Rattle.std.specs.Ordering.{int_eq};
ghost use Rattle.page_model.specs.Limits.{most_vertices};
ghost use Rattle.zone_map.specs.Tallies.{left};

use crate::gaps::none_before;
use page_model::parts::OutOfMemory;
use std::alloc::Global;
use std::marker::Model;

/// Buffers for a row: for each x the number of a path's segments that cross the row upwards, and of those that cross it
/// downwards, with x samples left of the crossing. Contracts see the width of the rows that it was made for, and its
/// capacity.
#[derive(Drop)]
pub struct SpanBuf {
    pub(crate) width: u32,
    pub(crate) ups: Vec<u32>,
    pub(crate) downs: Vec<u32>,
}

impl Model for SpanBuf {
    ghost use Rattle.std.specs.Prelude.{◌≡◌, ◌+◌, length, vec_capacity};
    ghost use Rattle.zone_map.specs.Workspace.{Workspace};

    ghost Value = { Workspace };

    ghost view = { λ s. record {
      wide = s.width;
      ups = vec_capacity s.ups;
      downs = vec_capacity s.downs;
    } };

    ghost invariant = { λ s. (length s.ups.items ≡ s.width + 1)
        × (length s.downs.items ≡ s.width + 1) };
}

impl SpanBuf {
    /// Allocates the buffers for rows of `width` samples.
    pub fn new(alloc: Global, width: u32) -> Result<SpanBuf, OutOfMemory>
        ensures { IfOk result (λ spans. spans.wide ≡ width) }
    {
        let places = width as usize + 1;
        let Ok(ups) = vec![in alloc; 0u32; places] else {
            return Err(OutOfMemory);
        };
        let Ok(downs) = vec![in alloc; 0u32; places] else {
            return Err(OutOfMemory);
        };
        Ok(SpanBuf { width, ups, downs })
    }
}

/// Writes the zone to `out[from..to]`.
fn write_run(out: &mut [u8], from: usize, to: usize, zone: u8)
    requires order { from ≤ to }
    requires inside { to ≤ length out.old }
    ensures here { (x : ℕ) → from ≤ x → x < to → slice_index out.new x ≡ zone }
    ensures before { (x : ℕ) → x < from → slice_index out.new x ≡ slice_index out.old x }
    ensures after { (x : ℕ) → to ≤ x → slice_index out.new x ≡ slice_index out.old x }
    ensures long { length out.new ≡ length out.old }
{
    out[from..to].fill(zone);
}

/// Writes the zone to all samples to the right of which the crossings do not cancel out. Samples with no crossing
/// between them are written together.
pub(crate) fn write_spans(out: &mut [u8], ups: &[u32], downs: &[u32], zone: u8)
    requires ups { length ups.now ≡ length out.old + 1 }
    requires downs { length downs.now ≡ length out.old + 1 }
    requires few { sum ups.now + sum downs.now ≤ most_vertices }
    ensures each { (x : ℕ) → x < length out.old
        → slice_index out.new x
        ≡ (if int_eq (left ups.now downs.now x) (pos 0) then slice_index out.old x else zone) }
    ensures long { length out.new ≡ length out.old }
{
    let mut up = 0u32;
    let mut down = 0u32;
    let mut x = out.len();
    while 0 < x {
        up += ups[x];
        down += downs[x];
        let from = x - 1 - none_before(ups, downs, x);
        if up != down {
            write_run(out, from, x, zone);
        }
        x = from;
    }
}
