// The report of a sheet that streams.

ghost use Rattle.std.specs.Prelude.{◌≡◌, ◌≢◌, ◌≤◌, ℕ, length, map};
ghost use Rattle.sheet_geometry.specs.Outline.{outline_sheet};
ghost use Rattle.outside.specs.Writing.{WritesFile};
ghost use Rattle.page_model.specs.declared.parts.PageParts.{PageParts};
ghost use Rattle.page_model.specs.Counts.{page_counts};
ghost use Rattle.page_model.specs.Page.{plates};
ghost use Rattle.sheet_engine.specs.Whole.{IsCounted};
ghost use Rattle.trap_report.specs.Report.{AreCounts};
ghost use Rattle.sheet_files.specs.Reporting.{sheet_report};
ghost use Rattle.plate_rows.specs.Racks.{rack_at};
ghost use Rattle.sheet_files.specs.Reporting.{CountSome};

use lists::list::List;
use outside::rack::Rack;
use outside::tray::DeviceError;
use page_model::parts::{Counts, PageParts};
use sheet_engine::counts::SheetCounts;
use sheet_stream::stored_laws::report_is_outline;
use trap_report::file::write_report;

/// The counts of a sheet as its report has them.
pub fn counts_in_report(counts: SheetCounts) -> Counts
    ensures { (sheet : PageParts) → IsCounted sheet counts
        → (result ≡ page_counts sheet) × AreCounts sheet result }
{
    let SheetCounts {
        zone_samples,
        zone_changed,
        plate_changed,
        edges,
    } = counts;
    Counts {
        zone_samples: List::from_vec(zone_samples),
        zone_changed: List::from_vec(zone_changed),
        edges,
        plate_changed: List::from_vec(plate_changed),
    }
}

/// Writes the report of a sheet, given without its tints, with these counts by the first rack.
pub fn report_counts<R: Rack>(
    racks: &mut [R],
    name: &str,
    outline: &PageParts,
    counts: SheetCounts,
) -> Result<(), DeviceError>
    requires racks { 1 ≤ length racks.old }
    requires some { 1 ≤ plates outline.now }
    requires inks { length outline.now.inks ≡ plates outline.now }
    requires counts { CountSome outline.now counts }
    ensures here { (sheet : PageParts) → outline_sheet sheet ≡ outline.now → IsCounted sheet counts
        → WritesFile name.now (sheet_report sheet) (rack_at (map R.state racks.old) 0)
        (rack_at (map R.state racks.new) 0) result }
    ensures others { (k : ℕ) → k ≢ 0
        → rack_at (map R.state racks.new) k ≡ rack_at (map R.state racks.old) k }
{
    report_is_outline();
    let reported = counts_in_report(counts);
    write_report(&mut racks[0], name, outline, &reported)
}
