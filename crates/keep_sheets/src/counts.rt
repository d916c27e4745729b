ghost use Rattle.std.specs.Prelude.{◌≡◌, IfOk, replicate};

use lists::memory::no_counts;
use page_model::parts::OutOfMemory;
use std::alloc::Global;

/// The counts of a sheet so far: the covered pixels, and for each plate those that changed.
#[derive(Drop)]
pub struct KeepCounts {
    pub covered: u64,
    pub changed: Vec<u64>,
}

/// Allocates the counts of a sheet with so many plates, all 0.
pub fn no_keep_counts(alloc: Global, plates: u32) -> Result<KeepCounts, OutOfMemory>
    ensures covered { IfOk result (λ counts. counts.covered ≡ 0) }
    ensures changed { IfOk result (λ counts. counts.changed.items ≡ replicate plates 0) }
{
    Ok(KeepCounts {
        covered: 0,
        changed: no_counts(alloc, plates as usize)?,
    })
}
