// Sums of the counts of a sheet.

ghost use Rattle.std.specs.Prelude.{◌≡◌, IfOk};
ghost use Rattle.sheet_engine.specs.Works.{AreAdded, AreNone, CanAdd};

use crate::counts::SheetCounts;
use lists::memory::no_counts;
use page_model::parts::OutOfMemory;
use page_tally::add_counts;
use sheet_geometry::window_sheet::Sheet;
use std::alloc::Global;

/// Allocates the counts of a sheet, all 0.
pub fn no_sheet_counts(alloc: Global, sheet: &Sheet) -> Result<SheetCounts, OutOfMemory>
    ensures { IfOk result (AreNone sheet.now) }
{
    Ok(SheetCounts {
        zone_samples: no_counts(alloc, sheet.zones() as usize)?,
        zone_changed: no_counts(alloc, sheet.zones() as usize)?,
        plate_changed: no_counts(alloc, sheet.plates() as usize)?,
        edges: 0,
    })
}

/// Adds to each count of a sheet the one of the same zone or plate in `more`.
pub fn add_sheet_counts(counts: &mut SheetCounts, more: &SheetCounts)
    requires { CanAdd counts.old more.now }
    ensures { AreAdded counts.old more.now counts.new }
{
    add_counts(&mut counts.zone_samples, &more.zone_samples);
    add_counts(&mut counts.zone_changed, &more.zone_changed);
    add_counts(&mut counts.plate_changed, &more.plate_changed);
    counts.edges += more.edges;
}
