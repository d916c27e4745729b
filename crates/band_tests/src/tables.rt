ghost use Rattle.std.specs.Prelude.{◌≡◌, ◌≤◌, IfOk, None};
ghost use Rattle.band_claims.specs.Seating.{Seats};
ghost use Rattle.band_claims.specs.Views.{newcomer};
ghost use Rattle.page_model.specs.Bands.{AreBands};
ghost use Rattle.page_model.specs.Page.{height as height_of, plates, width};
ghost use Rattle.page_model.specs.Reach.{page_reach};

use band_claims::{Pass, Shared};
use band_core::layout::Layout;
use page_model::bands::Bands;
use page_model::page::Page;
use page_model::parts::OutOfMemory;
use page_source::sample::sample_page;
use std::alloc::Global;

/// Sixteen by eight samples: a tile of cyan beside a tile of black.
pub fn two_tiles(alloc: Global) -> Result<Page, OutOfMemory> {
    match sample_page(alloc, 0, 16, 8) {
        Ok(page) => Ok(page),
        Err(_) => Err(OutOfMemory),
    }
}

/// The page in bands of that height.
pub fn bands_of(page: &Page, height: u32) -> Bands
    requires some { 1 ≤ height }
    requires low { height ≤ 4096 }
    ensures made { AreBands result }
    ensures rows { result.rows ≡ height_of page.now }
    ensures reach { result.reach2 ≡ page_reach page.now }
{
    Bands::new(page.height(), height, page.reach2())
}

/// A table for the page in these bands.
pub fn table(alloc: Global, page: &Page, bands: &Bands) -> Result<(Shared, Pass), OutOfMemory>
    requires made { AreBands bands.now }
    requires rows { bands.now.rows ≡ height_of page.now }
    requires reach { bands.now.reach2 ≡ page_reach page.now }
    ensures pass { IfOk result (λ t. Seats t.0 t.1) }
    ensures idle { IfOk result (λ t. t.1.view.stored ≡ None) }
    ensures new { IfOk result (λ t. t.1.view ≡ newcomer t.0.table_key) }
    ensures page { IfOk result (λ t. t.0.table_key.page.value ≡ page.now) }
    ensures layout { IfOk result (λ t. t.0.table_key.layout
        ≡ record { bands = bands.now; width = width page.now; plates = plates page.now }) }
{
    let layout = Layout::new(page.width(), page.plates(), bands);
    Shared::new(alloc, page, bands, &layout)
}
