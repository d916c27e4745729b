ghost use Rattle.std.specs.Prelude.{◌≡◌, ◌≤◌, All, IfOk, length};
ghost use Rattle.band_pieces.specs.Finished.{IsFinished};
ghost use Rattle.page_model.specs.Bands.{AreBands};
ghost use Rattle.page_model.specs.Page.{height as height_of, plates, width};
ghost use Rattle.page_model.specs.Reach.{page_reach};

use crate::expected::is_whole;
use crate::tables::{bands_of, table, two_tiles};
use band_claims::{Closed, OpenGate, work_many};
use band_pieces::{Scratch, finish_table};
use lists::list::List;
use lists::memory::push;
use page_model::bands::Bands;
use page_model::page::Page;
use page_model::parts::OutOfMemory;
use std::alloc::Global;
use std::test::Fail;
use std::thread::Threads;

/// The memory of `count` workers.
fn scratches(
    alloc: Global,
    page: &Page,
    bands: &Bands,
    count: u32,
) -> Result<Vec<Scratch>, OutOfMemory>
    requires made { AreBands bands.now }
    requires rows { bands.now.rows ≡ height_of page.now }
    requires reach { bands.now.reach2 ≡ page_reach page.now }
    ensures count { IfOk result (λ all. length all.items ≡ count) }
    ensures layout { IfOk result (λ all. All (λ scratch. scratch.layout
        ≡ record { bands = bands.now; width = width page.now; plates = plates page.now })
        all.items) }
{
    let mut all = List::new(alloc);
    for _k in 0..count {
        push(&mut all, Scratch::new(alloc, page, bands)?)?;
    }
    Ok(all.into_vec())
}

/// The page made by `workers` workers.
fn make_by<R: Threads + Sync>(
    rt: &R,
    alloc: Global,
    page: &Page,
    workers: u32,
    height: u32,
) -> Result<Closed, OutOfMemory>
    requires some { 1 ≤ workers }
    requires some_height { 1 ≤ height }
    requires low { height ≤ 4096 }
    ensures { IfOk result (λ closed. IsFinished page.now closed) }
{
    let bands = bands_of(page, height);
    let mut all = scratches(alloc, page, &bands, workers)?;
    let mut alone_scratch = Scratch::new(alloc, page, &bands)?;
    let (shared, pass) = table(alloc, page, &bands)?;
    let pass = work_many(rt, &shared, pass, page, all.as_mut_slice(), &OpenGate);
    Ok(finish_table(shared, pass, page, &mut alone_scratch))
}

/// Whether a closed table of a finished page is that of the two tiles.
fn is_finished(closed: &Closed, page: &Page) -> bool
    requires { IsFinished page.now closed.now }
{
    is_whole(closed, page)
}

fn is_made_by<R: Threads + Sync>(
    rt: &R,
    alloc: Global,
    workers: u32,
    height: u32,
) -> Result<bool, OutOfMemory> {
    if workers < 1 || height < 1 || height > 4096 {
        return Ok(false);
    }
    let page = two_tiles(alloc)?;
    let closed = make_by(rt, alloc, &page, workers, height)?;
    Ok(is_finished(&closed, &page))
}

#[test]
fn any_number_of_workers_makes_the_page(rt: HostRuntime) -> Result<(), Fail> {
    for (workers, height) in [
        (1, 1),
        (1, 3),
        (1, 64),
        (2, 1),
        (2, 5),
        (3, 2),
        (3, 1),
        (7, 1),
        (7, 4096),
    ] {
        let made = is_made_by(&rt, rt.alloc(), workers, height).or(Err("memory"))?;
        assert!(rt; made, "{workers} {height}");
    }
    Ok(())
}
