// The page by workers at the shared table, against the page on one thread.
ghost use Rattle.std.specs.Prelude.{◌≤◌};

use crate::memory::value_of;
use crate::random_pages::{some_page, some_shape};
use crate::slow_traps::same_traps;
use band_claims::OpenGate;
use page_model::page::Page;
use std::alloc::Global;
use std::process::Abort;
use std::thread::Threads;
use trap_engine::{Trapped, trap_alone, trap_page};

/// Whether the page comes out so by that many workers, in bands of that many rows.
fn is_alike<R: Threads + Sync>(
    rt: &R,
    alloc: Global,
    page: &Page,
    workers: u32,
    band: u32,
    alone: &Trapped,
) -> bool
    requires some_workers { 1 ≤ workers }
    requires few_workers { workers ≤ 64 }
    requires some_rows { 1 ≤ band }
    requires few_rows { band ≤ 4096 }
{
    match trap_page(rt, alloc, page, workers, band, &OpenGate) {
        Ok((trapped, _receipt)) => same_traps(&trapped, alone),
        Err(_) => false,
    }
}

/// Whether it does so in bands of any height.
fn is_alike_in_bands<R: Threads + Sync>(
    rt: &R,
    alloc: Global,
    page: &Page,
    workers: u32,
    alone: &Trapped,
) -> bool
    requires some_workers { 1 ≤ workers }
    requires few_workers { workers ≤ 64 }
{
    for band in [1, 2, 5, 64, 4096] {
        if !is_alike(rt, alloc, page, workers, band, alone) {
            return false;
        }
    }
    true
}

/// Whether it does so by any number of workers.
fn is_alike_by_each<R: Threads + Sync>(
    rt: &R,
    alloc: Global,
    page: &Page,
    alone: &Trapped,
) -> bool {
    for workers in [1, 2, 3, 7, 64] {
        if !is_alike_in_bands(rt, alloc, page, workers, alone) {
            return false;
        }
    }
    true
}

/// Whether trapping changes samples of each plate.
fn changes_each(trapped: &Trapped) -> bool {
    trapped
        .counts
        .plate_changed
        .as_slice()
        .iter()
        .all(|n| *n > 0)
}

/// Whether the page comes out by any workers as it does on one thread, and whether each of its plates changes.
fn is_alike_by_workers<R: Threads + Abort + Sync>(
    rt: &R,
    alloc: Global,
    page: &Page,
) -> (bool, bool) {
    let alone = value_of(rt, trap_alone(alloc, page));
    (
        is_alike_by_each(rt, alloc, page, &alone),
        changes_each(&alone),
    )
}

/// Does the same for a random page of these sides.
fn is_alike_at_random<R: Threads + Abort + Sync>(
    rt: &R,
    alloc: Global,
    seed: u64,
    width: u32,
    height: u32,
    reach2: u32,
) -> (bool, bool)
    requires some_width { 1 ≤ width }
    requires narrow { width ≤ 2000 }
    requires some_height { 1 ≤ height }
    requires low { height ≤ 2000 }
    requires near { reach2 ≤ 256 }
{
    let mut dice = seed;
    let shape = some_shape(&mut dice, width, height, reach2);
    let page = some_page(rt, alloc, &mut dice, shape);
    is_alike_by_workers(rt, alloc, &page)
}

#[test]
fn traps_by_any_workers_as_alone(rt: HostRuntime) {
    for (seed, width, height, reach2, changes) in [
        (4, 9, 23, 5, true),
        (2, 3, 40, 7, true),
        (5, 70, 7, 40, true),
        (2, 30, 130, 256, true),
        (2026, 1, 40, 0, false),
    ] {
        let alike = is_alike_at_random(&rt, rt.alloc(), seed, width, height, reach2);
        assert!(rt; alike == (true, changes), "{seed}");
    }
}
