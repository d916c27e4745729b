//! Allocation: one item more in a list, and vectors of one item repeated.

ghost use Rattle.std.specs.Prelude.{◌≡◌, ◌∷◌, ◌++◌, [], IfOk, OnOk, replicate, vec_len};

use crate::list::List;
use crate::names::OutOfMemory;
use std::alloc::Global;

/// Adds the item at the end.
pub fn push<T: Drop>(list: &mut List<T>, item: T) -> Result<(), OutOfMemory>
    ensures { OnOk result (list.new ≡ list.old ++ item ∷ []) }
{
    match list.push(item) {
        Ok(()) => Ok(()),
        Err(_) => Err(OutOfMemory),
    }
}

/// Allocates a vector of `count` copies of an item.
pub fn vec_of<T: Copy + Drop>(alloc: Global, item: T, count: usize) -> Result<Vec<T>, OutOfMemory>
    ensures { IfOk result (λ items. vec_len items ≡ count) }
{
    match vec![in alloc; item; count] {
        Ok(items) => Ok(items),
        Err(_) => Err(OutOfMemory),
    }
}

/// Allocates a vector of `count` counters, all 0.
pub fn no_counts(alloc: Global, count: usize) -> Result<Vec<u64>, OutOfMemory>
    ensures { IfOk result (λ counts. counts.items ≡ replicate count 0) }
{
    match vec![in alloc; 0u64; count] {
        Ok(items) => Ok(items),
        Err(_) => Err(OutOfMemory),
    }
}
