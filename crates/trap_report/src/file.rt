// A report as a file.

ghost use Rattle.std.specs.Prelude.{◌≡◌, ◌≤◌, IsTrue, length};
ghost use Rattle.outside.specs.Writing.{FillsFile, WritesFile};
ghost use Rattle.page_model.specs.Page.{plates};
ghost use Rattle.trap_report.specs.Report.{AreCounts, report_of};

use crate::writer::write_all;
use outside::rack::Rack;
use outside::tray::DeviceError;
use page_model::parts::{Counts, PageParts};

/// Writes the report of a sheet with these counts to the file of that name. It reads no tint of the sheet, and
/// allocates nothing.
///
/// Where a call of the rack fails, a prefix of the report stands under the name, or, where the file could not be created,
/// everything is as it was.
pub fn write_report<R: Rack>(
    rack: &mut R,
    name: &str,
    sheet: &PageParts,
    counts: &Counts,
) -> Result<(), DeviceError>
    requires some { 1 ≤ plates sheet.now }
    requires inks { length sheet.now.inks ≡ plates sheet.now }
    requires counts { AreCounts sheet.now counts.now }
    ensures { let text = report_of sheet.now counts.now in
        WritesFile name.now text (R.state rack.old) (R.state rack.new) result }
{
    rack.create(name)?;
    fill_report(rack, sheet, counts)
}

// Writes all of the open file, and finishes it.
fn fill_report<R: Rack>(rack: &mut R, sheet: &PageParts, counts: &Counts) -> Result<(), DeviceError>
    requires open { IsTrue (R.state rack.old).is_open }
    requires some { 1 ≤ plates sheet.now }
    requires inks { length sheet.now.inks ≡ plates sheet.now }
    requires counts { AreCounts sheet.now counts.now }
    ensures { let text = report_of sheet.now counts.now in
        FillsFile text (R.state rack.old) (R.state rack.new) result }
{
    write_all(rack, sheet, counts)?;
    rack.finish()
}
