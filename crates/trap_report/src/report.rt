// The report of a page in memory.

ghost use Rattle.std.specs.Prelude.{◌≡◌, IfOk, length};
ghost use Rattle.page_model.specs.Page.{maxval, plates};
ghost use Rattle.trap_report.specs.Report.{AreCounts, report_of, sided_report_of};

use crate::reported::{Head, Reported};
use crate::sink::Text;
use crate::writer::write_lines;
use lists::list::List;
use page_model::page::Page;
use page_model::parts::{Counts, Name, OutOfMemory};
use std::alloc::Global;

/// The report of a page with its counts: lines that each end with LF, numbers in decimal.
///
/// It gives the page's sides, maxval and number of plates; for each zone the number of its samples and of those that
/// changed; the number of deciding edges; and for each plate the number of its changed samples. The form is this
/// project's own (docs/REPORT.md).
pub fn report(alloc: Global, page: &Page, counts: &Counts) -> Result<Name, OutOfMemory>
    requires { AreCounts page.now counts.now }
    ensures { IfOk result (λ text. text ≡ report_of page.now counts.now) }
{
    sided_report(alloc, page, page.width(), page.height(), counts)
}

/// The report of a page that is a window of a sheet, as `report` gives it, with the sheet's sides in place of the
/// page's.
pub fn sided_report(
    alloc: Global,
    page: &Page,
    width: u32,
    height: u32,
    counts: &Counts,
) -> Result<Name, OutOfMemory>
    requires { AreCounts page.now counts.now }
    ensures { IfOk result (λ text. text ≡ sided_report_of page.now width height counts.now) }
{
    let head = Head {
        width,
        height,
        maxval: page.maxval(),
        plates: u64::from(page.plates()),
    };
    text_of(alloc, page, &head, counts)
}

// The report in memory of what has one.
pub(crate) fn text_of<P: Reported>(
    alloc: Global,
    page: &P,
    head: &Head,
    counts: &Counts,
) -> Result<Name, OutOfMemory>
    requires inks { length (P.parts page.now).inks ≡ plates (P.parts page.now) }
    requires counts { AreCounts (P.parts page.now) counts.now }
    requires maxval { head.now.maxval ≡ maxval (P.parts page.now) }
    requires plates { head.now.plates ≡ plates (P.parts page.now) }
    ensures { IfOk result (λ text. text
        ≡ sided_report_of (P.parts page.now) head.now.width head.now.height counts.now) }
{
    let mut text = Text::new(alloc);
    match write_lines(&mut text, page, head, counts) {
        Ok(()) => Ok(List::from_vec(text.bytes)),
        Err(_) => Err(OutOfMemory),
    }
}
