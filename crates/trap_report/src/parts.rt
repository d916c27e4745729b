// The report of a page or a sheet by its parts.

ghost use Rattle.std.specs.Prelude.{◌≡◌, ◌≤◌, IfOk, length};
ghost use Rattle.page_model.specs.Page.{plates};
ghost use Rattle.trap_report.specs.Report.{AreCounts, report_of};

use crate::report::text_of;
use crate::reported::Reported;
use page_model::parts::{Counts, Name, OutOfMemory, PageParts};
use std::alloc::Global;

/// The report of a page or a sheet, as `report` gives it, from its parts: the sides may be larger than a page's.
pub fn report_parts(alloc: Global, parts: &PageParts, counts: &Counts) -> Result<Name, OutOfMemory>
    requires some { 1 ≤ plates parts.now }
    requires inks { length parts.now.inks ≡ plates parts.now }
    requires counts { AreCounts parts.now counts.now }
    ensures { IfOk result (λ text. text ≡ report_of parts.now counts.now) }
{
    text_of(alloc, parts, &parts.head(), counts)
}
