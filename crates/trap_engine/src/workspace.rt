// All the memory of a page's work at the shared table.
ghost use Rattle.std.specs.Prelude.{◌≡◌, ◌+◌, ◌<◌, ◌≤◌, [], All, IfOk, None, false, length, min, vec_capacity, vec_len};
ghost use Rattle.band_claims.specs.Seating.{Seats};
ghost use Rattle.band_claims.specs.Views.{newcomer};
ghost use Rattle.page_model.specs.Bands.{AreBands};
ghost use Rattle.page_model.specs.Limits.{most_band_height, most_workers};
ghost use Rattle.page_model.specs.Page.{height, plates, samples, width};
ghost use Rattle.page_model.specs.Reach.{page_reach};
ghost use Rattle.page_tally.specs.Tallies.{HasTallies};
ghost use Rattle.trap_engine.specs.Taking.{ArePlateWorks, AreSeatedWorks};

use crate::parts::{Part, parts_of};
use crate::plates::PlateWork;
use band_claims::{Pass, Reader, Shared};
use band_core::layout::Layout;
use band_pieces::Scratch;
use lists::list::List;
use lists::memory::{no_counts, push, vec_of};
use page_model::bands::Bands;
use page_model::page::Page;
use page_model::parts::{OutOfMemory, Plane, PlaneList};
use page_tally::Outcome;
use std::alloc::Global;
use std::marker::Model;

/// All the memory that trapping a page by workers takes: the shared table, the memory of each worker, the planes of the
/// result and the counts. Contracts see the page that it was made for, the layout of its cells, the number of workers
/// that it has memory for, the number of parts in which the page's rows are counted, each in a thread, and how many
/// marks its table has memory for. No piece was claimed by its pass yet.
#[derive(Drop)]
pub struct TrapWorkspace {
    pub(crate) shared: Shared,
    pub(crate) pass: Pass,
    pub(crate) scratches: Vec<Scratch>,
    // of the caller, for what the workers leave
    pub(crate) alone_scratch: Scratch,
    // one for each plate
    pub(crate) works: Vec<PlateWork>,
    // the page's rows, one part for each worker at most
    pub(crate) parts: Vec<Part>,
    pub(crate) outcome: Outcome,
}

impl Model for TrapWorkspace {
    ghost use Rattle.std.specs.Prelude.{length};
    ghost use Rattle.trap_engine.specs.Workspace.{IsWorkspace, WorkspaceView};

    ghost Value = { WorkspaceView };

    ghost view = { λ r. record {
      page = record { value = r.shared.table_key.page.value };
      layout = r.shared.table_key.layout;
      workers = length r.scratches.items;
      parts = length r.parts.items;
      marks = r.shared.workspace;
    } };

    ghost invariant = { λ r. IsWorkspace r.shared r.pass r.scratches.items r.alone_scratch r.works.items
        r.parts.items r.outcome };
}

/// The number of workers: as many as are asked for, or as there are bands, if these are fewer.
fn workers_for(bands: &Bands, workers: u32) -> u32
    requires bands { AreBands bands.now }
    requires some { 1 ≤ workers }
    ensures value { result ≡ min workers bands.now.count }
    ensures some { 1 ≤ result }
{
    workers.min(bands.count)
}

/// Allocates the memory of the workers.
fn scratches_of(
    alloc: Global,
    page: &Page,
    bands: &Bands,
    count: usize,
) -> Result<Vec<Scratch>, OutOfMemory>
    requires bands { AreBands bands.now }
    requires rows { bands.now.rows ≡ height page.now }
    requires reach { bands.now.reach2 ≡ page_reach page.now }
    ensures made { IfOk result (λ scratches. All (λ scratch. scratch.layout
        ≡ record { bands = bands.now; width = width page.now; plates = plates page.now })
        scratches.items) }
    ensures count { IfOk result (λ scratches. vec_len scratches ≡ count) }
{
    let mut scratches = Vec::new(alloc);
    while scratches.len() < count {
        let scratch = Scratch::new(alloc, page, bands)?;
        if scratches.push(scratch).is_err() {
            return Err(OutOfMemory);
        }
    }
    Ok(scratches)
}

/// An empty plane, as a placeholder.
fn no_plane(alloc: Global) -> Plane {
    Plane {
        width: 0,
        height: 0,
        maxval: 0,
        tints: List::new(alloc),
    }
}

/// Allocates an empty list with the capacity for the tints of a plate. Nothing is written to it, so that its memory is
/// first touched by the thread that reads the plate.
fn no_tints(alloc: Global, page: &Page) -> Result<Vec<u16>, OutOfMemory>
    ensures none { IfOk result (λ tints. tints.items ≡ []) }
    ensures workspace { IfOk result (λ tints. samples page.now ≤ vec_capacity tints) }
{
    let count = page.width() as usize * page.height() as usize;
    match Vec::with_capacity(alloc, count) {
        Ok(tints) => Ok(tints),
        Err(_) => Err(OutOfMemory),
    }
}

/// What a plate is read with.
fn work_of(alloc: Global, page: &Page, reader: Reader) -> Result<PlateWork, OutOfMemory>
    ensures row { IfOk result (λ work. length work.row.items ≡ width page.now) }
    ensures reader { IfOk result (λ work. work.reader ≡ reader) }
    ensures none { IfOk result (λ work. work.tints.items ≡ []) }
    ensures workspace { IfOk result (λ work. samples page.now ≤ vec_capacity work.tints) }
    ensures done { IfOk result (λ work. work.done ≡ false) }
{
    Ok(PlateWork {
        reader,
        row: vec_of(alloc, 0u16, page.width() as usize)?,
        tints: no_tints(alloc, page)?,
        changed: 0,
        done: false,
    })
}

/// What each plate is read with. A reader is split off for each.
fn works_of(
    alloc: Global,
    page: &Page,
    shared: &Shared,
    pass: &mut Pass,
) -> Result<Vec<PlateWork>, OutOfMemory>
    requires pass { Seats shared.now pass.old }
    requires idle { pass.old.view.stored ≡ None }
    ensures pass { pass.new ≡ pass.old }
    ensures works { IfOk result (λ works. ArePlateWorks page.now works.items) }
    ensures seats { IfOk result (λ works. AreSeatedWorks shared.now works.items) }
{
    let mut works = List::new(alloc);
    for _ in 0..page.plates() {
        let reader = shared.reader(pass);
        push(&mut works, work_of(alloc, page, reader)?)?;
    }
    Ok(works.into_vec())
}

/// Empty planes, as placeholders for those of the plates.
fn no_planes(alloc: Global, count: u32) -> Result<PlaneList, OutOfMemory>
    ensures { IfOk result (λ planes. length planes ≡ count) }
{
    let mut planes = List::new(alloc);
    for _ in 0..count {
        push(&mut planes, no_plane(alloc))?;
    }
    Ok(planes)
}

/// A result with no row of the page added, whose planes are set later.
fn no_outcome(alloc: Global, page: &Page) -> Result<Outcome, OutOfMemory>
    ensures { IfOk result (HasTallies page.now 0) }
{
    let zones = page.zones() as usize;
    Ok(Outcome {
        planes: no_planes(alloc, page.plates())?,
        zone_samples: no_counts(alloc, zones)?,
        zone_changed: no_counts(alloc, zones)?,
        plate_changed: no_counts(alloc, page.plates() as usize)?,
        edges: 0,
        changes: vec_of(alloc, false, page.width() as usize)?,
    })
}

impl TrapWorkspace {
    /// Allocates the memory for trapping this page by `workers` workers, in bands of `band` rows. If there are fewer
    /// bands than workers, as many workers as bands are used.
    pub fn new(
        alloc: Global,
        page: &Page,
        workers: u32,
        band: u32,
    ) -> Result<TrapWorkspace, OutOfMemory>
        requires some_workers { 1 ≤ workers }
        requires few_workers { workers ≤ most_workers }
        requires some_rows { 1 ≤ band }
        requires few_rows { band ≤ most_band_height }
        ensures page { IfOk result (λ workspace. workspace.page.value ≡ page.now) }
        ensures band { IfOk result (λ workspace. workspace.layout.bands.height ≡ band) }
        ensures workers { IfOk result (λ workspace. workspace.workers ≡ min workers workspace.layout.bands.count) }
        ensures few_parts { IfOk result (λ workspace. workspace.parts ≤ workspace.workers) }
    {
        let bands = Bands::new(page.height(), band, page.reach2());
        let layout = Layout::new(page.width(), page.plates(), &bands);
        let count = workers_for(&bands, workers);
        // The table comes first: the zeros that it is copied from are let go, and the tints then lie in memory that was theirs.
        let (shared, mut pass) = Shared::new(alloc, page, layout.bands(), &layout)?;
        let works = works_of(alloc, page, &shared, &mut pass)?;
        let parts = parts_of(alloc, page, &shared, &mut pass, count)?;
        Ok(TrapWorkspace {
            shared,
            pass,
            scratches: scratches_of(alloc, page, &bands, count as usize)?,
            alone_scratch: Scratch::new(alloc, page, &bands)?,
            works,
            parts,
            outcome: no_outcome(alloc, page)?,
        })
    }
}
