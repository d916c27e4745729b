// The report.

ghost use Rattle.std.specs.Prelude.{◌≡◌, ◌<◌, ◌++◌, ℕ, IfOk, OnOk, codes, length, slice_index};
ghost use Rattle.std.specs.Fmt.{decimal};
ghost use Rattle.common_errors.specs.Lines.{line};
ghost use Rattle.page_model.specs.Page.{height, maxval, plates, width};
ghost use Rattle.trap_report.specs.Report.{head_line};
ghost use Rattle.keep_pages.specs.KeptPages.{changed_count, covered_count, keep_report, plate_line, plate_lines, report_text, under_black as black_spec, under_colour as colour_spec};

use crate::uses::KeepUse;
use lists::list::List;
use page_model::page::Page;
use page_model::parts::{Name, OutOfMemory};
use std::alloc::{AllocError, Global};
use trap_report::lines::{add, add_number};

fn add_head(text: &mut Vec<u8>, page: &Page) -> Result<(), AllocError>
    ensures { OnOk result (text.new.items ≡ text.old.items
        ++ head_line (width page.now) (height page.now) (maxval page.now) (plates page.now)) }
{
    add_number(text, b"page ", u64::from(page.width()))?;
    add_number(text, b" ", u64::from(page.height()))?;
    add_number(text, b" ", u64::from(page.maxval()))?;
    add_number(text, b" plates ", u64::from(page.plates()))?;
    add(text, b"\n")
}

// Of so many pixels those that changed under black.
fn under_black(used: &KeepUse, changed: u64) -> u64
    ensures { result ≡ black_spec used.now changed }
{
    match used {
        KeepUse::UnderBlack(_) => changed,
        KeepUse::UnderColour(_) => 0,
    }
}

// Of so many pixels those that changed under colour.
fn under_colour(used: &KeepUse, changed: u64) -> u64
    ensures { result ≡ colour_spec used.now changed }
{
    match used {
        KeepUse::UnderBlack(_) => 0,
        KeepUse::UnderColour(_) => changed,
    }
}

fn add_plate(
    text: &mut Vec<u8>,
    used: &KeepUse,
    name: &[u8],
    changed: u64,
) -> Result<(), AllocError>
    ensures { OnOk result (text.new.items ≡ text.old.items
        ++ plate_line used.now name.now changed) }
{
    add(text, b"plate ")?;
    add(text, name)?;
    add_number(text, b" rich-black ", under_black(used, changed))?;
    add_number(text, b" underprint ", under_colour(used, changed))?;
    add(text, b"\n")?;
    Ok(())
}

fn add_plates(
    text: &mut Vec<u8>,
    page: &Page,
    used: &KeepUse,
    changed: &[u64],
) -> Result<(), AllocError>
    requires { length changed.now ≡ plates page.now }
    ensures { OnOk result (text.new.items ≡ text.old.items
        ++ plate_lines page.now used.now (slice_index changed.now) (plates page.now)) }
{
    for c in 0..page.plates() {
        add_plate(text, used, page.ink(c).name.as_slice(), changed[c as usize])?;
    }
    Ok(())
}

fn add_all(
    text: &mut Vec<u8>,
    page: &Page,
    used: &KeepUse,
    covered: u64,
    changed: &[u64],
) -> Result<(), AllocError>
    requires { length changed.now ≡ plates page.now }
    ensures { OnOk result (text.new.items ≡ text.old.items
        ++ report_text page.now used.now covered (slice_index changed.now)) }
{
    add(text, b"keepaway report\n")?;
    add_head(text, page)?;
    add_number(text, b"covered ", covered)?;
    add(text, b"\n")?;
    add_plates(text, page, used, changed)?;
    add(text, b"end\n")
}

/// The report of a page with its counts.
pub(crate) fn report_with(
    alloc: Global,
    page: &Page,
    used: &KeepUse,
    covered: u64,
    changed: &[u64],
) -> Result<Name, OutOfMemory>
    requires covered { covered ≡ covered_count page.now used.now }
    requires long { length changed.now ≡ plates page.now }
    requires changed { (c : ℕ) → c < plates page.now
        → slice_index changed.now c ≡ changed_count page.now used.now c }
    ensures { IfOk result (λ text. text ≡ keep_report page.now used.now) }
{
    let text = report_of(alloc, page, used, covered, changed)?;
    Ok(text)
}

/// The report of these counts: lines that each end with LF, numbers in decimal.
fn report_of(
    alloc: Global,
    page: &Page,
    used: &KeepUse,
    covered: u64,
    changed: &[u64],
) -> Result<Name, OutOfMemory>
    requires { length changed.now ≡ plates page.now }
    ensures { IfOk result (λ text. text
        ≡ report_text page.now used.now covered (slice_index changed.now)) }
{
    let mut text = Vec::new(alloc);
    match add_all(&mut text, page, used, covered, changed) {
        Ok(()) => Ok(List::from_vec(text)),
        Err(_) => Err(OutOfMemory),
    }
}
