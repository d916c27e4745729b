// Trapping a page at a worker's desk.

ghost use Rattle.std.specs.Prelude.{◌≡◌, IfOk, IsTrue, MatchResult};
ghost use Rattle.page_model.specs.Counts.{page_counts};
ghost use Rattle.page_model.specs.Page.{height};
ghost use Rattle.page_tally.specs.Shapes.{shape_of};
ghost use Rattle.page_tally.specs.Standing.{HasRows};
ghost use Rattle.trap_pool.specs.Desks.{station_shape};
ghost use Rattle.trap_pool.specs.Made.{IsTrapsOf};

use crate::station::Station;
use crate::traps::Traps;
use lists::list::List;
use page_model::laws::trapped_planes_law;
use page_model::page::Page;
use page_model::parts::{CountList, Counts, OutOfMemory, PageParts};
use page_tally::{Outcome, Trapped};
use std::alloc::Global;
use strip_engine::PageWorkspace;
use trap_report::report::report;

impl Station {
    fn new(alloc: Global, page: &Page) -> Result<Station, OutOfMemory>
        ensures { IfOk result (λ station. station_shape station ≡ shape_of page.now) }
    {
        Ok(Station {
            workspace: PageWorkspace::new(alloc, page)?,
            wide: page.width(),
            tall: page.height(),
            deep: page.plates(),
            zones: page.zones(),
        })
    }

    // A desk for the page: the idle one, if it fits.
    pub(crate) fn for_page(
        alloc: Global,
        idle: Option<Station>,
        page: &Page,
    ) -> Result<Station, OutOfMemory>
        ensures { IfOk result (λ station. station_shape station ≡ shape_of page.now) }
    {
        if let Some(station) = idle {
            if station.serves(page) {
                return Ok(station);
            }
        }
        Station::new(alloc, page)
    }

    // Whether it is for pages of this page's shape.
    fn serves(&self, page: &Page) -> bool
        ensures { IsTrue result → station_shape self.now ≡ shape_of page.now }
    {
        self.wide == page.width()
            && self.tall == page.height()
            && self.deep == page.plates()
            && self.zones == page.zones()
    }

    // Traps a page of the desk's shape, or gives it back if there is no memory for its counts and its report.
    pub(crate) fn trap(&mut self, alloc: Global, page: Page) -> Result<Traps, Page>
        requires { station_shape self.old ≡ shape_of page }
        ensures { MatchResult result (λ traps. IsTrapsOf page traps) (λ back. back ≡ page) }
    {
        trapped_planes_law(&page);
        self.workspace.trap(&page);
        let Ok(counts) = counts_of(alloc, &page, &self.workspace.outcome) else {
            return Err(page);
        };
        let Ok(text) = report(alloc, &page, &counts) else {
            return Err(page);
        };
        let PageParts {
            resolution: _,
            planes,
            inks: _,
            zones: _,
        } = page.into_parts();
        let planes = std::mem::replace(&mut self.workspace.outcome.planes, planes);
        Ok(Traps {
            trapped: Trapped { planes, counts },
            report: text,
        })
    }
}

// The counts of a page all of whose rows were added.
fn counts_of(alloc: Global, page: &Page, outcome: &Outcome) -> Result<Counts, OutOfMemory>
    requires { HasRows page.now (height page.now) outcome.now }
    ensures { IfOk result (λ counts. counts ≡ page_counts page.now) }
{
    let _valid = page.plates();
    Ok(Counts {
        zone_samples: copied_counts(alloc, outcome.zone_samples.as_slice())?,
        zone_changed: copied_counts(alloc, outcome.zone_changed.as_slice())?,
        edges: outcome.edges,
        plate_changed: copied_counts(alloc, outcome.plate_changed.as_slice())?,
    })
}

fn copied_counts(alloc: Global, counts: &[u64]) -> Result<CountList, OutOfMemory>
    ensures { IfOk result (λ list. list ≡ counts.now) }
{
    match Vec::from_slice(alloc, counts) {
        Ok(items) => Ok(List::from_vec(items)),
        Err(_) => Err(OutOfMemory),
    }
}
