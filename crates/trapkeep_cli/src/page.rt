// A page that was read: its inks drawn back, and its files written.

ghost use Rattle.std.specs.Prelude.{◌≡◌, ◌≤◌, ◌<◌, ◌↔◌, IfOk, IsTrue, codes, length, map, string_bytes};
ghost use Rattle.page_model.specs.Page.{plates};
ghost use Rattle.keep_words.specs.Stored.{IsWithin, keep_in};
ghost use Rattle.keep_words.specs.Words.{options_of, values_after, widest as widest_spec};
ghost use Rattle.page_model.specs.Limits.{most_plates, most_trap_width, scale};
ghost use Rattle.trapkeep_cli.specs.Commands.{IsRich, IsUsed, IsWide, written_plates};
ghost use Rattle.trapkeep_cli.specs.Putting.{IsKeptPage, PutsPage};

use crate::reason::TrapkeepError;
use common_errors::common::CommonError;
use keep_pages::laws::kept_planes_law;
use keep_pages::{KeepUse, Kept, keep_page};
use keep_words::whites::{whites_in, widest_white};
use keep_words::words::{KeepArgs, UseArgs, spared_names};
use keepaway::RichBlack;
use outside::rack::Rack;
use page_files::writing::write_page;
use page_model::page::Page;
use page_model::parts::OutOfMemory;
use plain_words::files::plate_outputs;
use std::alloc::Global;

/// 128 pixels, twice in ten-thousandths of a point times the resolution.
const WIDEST: u64 = 256 * 720_000;

// The greatest width that is asked for.
fn widest(command: &KeepArgs<'_>) -> u32
    requires { IsWithin command.now }
    ensures value { result ≡ widest_spec (keep_in command.now).used }
    ensures narrow { result ≤ most_trap_width }
{
    match command.used {
        UseArgs::Black { width, limit: _ } => width,
        UseArgs::Colour => widest_white(command.options),
    }
}

// Whether a width is more than 128 pixels.
fn is_wide(command: &KeepArgs<'_>, page: &Page) -> bool
    requires { IsWithin command.now }
    ensures { IsTrue result ↔ IsWide (keep_in command.now) page.now }
{
    let _valid = page.plates();
    WIDEST < 2 * (u64::from(widest(command)) * u64::from(page.resolution()))
}

// How inks are drawn back under black.
fn rich_of(
    alloc: Global,
    options: &[String],
    width: u32,
    limit: u32,
) -> Result<RichBlack, OutOfMemory>
    requires narrow { width ≤ most_trap_width }
    requires share { limit ≤ scale }
    ensures { IfOk result (IsRich width limit
        (values_after (codes "--except") (options_of (map string_bytes options.now)))) }
{
    Ok(RichBlack {
        width,
        limit,
        spared: spared_names(alloc, options)?,
    })
}

// What is drawn back.
fn used_of(alloc: Global, command: &KeepArgs<'_>) -> Result<KeepUse, OutOfMemory>
    requires { IsWithin command.now }
    ensures { IfOk result (λ used. IsUsed (keep_in command.now) used) }
{
    match command.used {
        UseArgs::Black { width, limit } => Ok(KeepUse::UnderBlack(rich_of(
            alloc,
            command.options,
            width,
            limit,
        )?)),
        UseArgs::Colour => Ok(KeepUse::UnderColour(whites_in(alloc, command.options)?)),
    }
}

// The page with its inks drawn back.
fn kept_of(alloc: Global, command: &KeepArgs<'_>, page: &Page) -> Result<Kept, OutOfMemory>
    requires within { IsWithin command.now }
    requires narrow { IsWide (keep_in command.now) page.now → ⊥ }
    ensures { IfOk result (λ kept. IsKeptPage (keep_in command.now) page.now
        kept.planes kept.report) }
{
    let used = used_of(alloc, command)?;
    kept_planes_law(page, &used);
    let kept = keep_page(alloc, page, &used)?;
    Ok(kept)
}

// Writes the plates and the report.
fn write_kept<R: Rack>(
    command: &KeepArgs<'_>,
    page: &Page,
    kept: Kept,
    outputs: &[&str],
    rack: &mut R,
) -> Result<(), TrapkeepError>
    requires narrow { IsWide (keep_in command.now) page.now → ⊥ }
    requires kept { IsKeptPage (keep_in command.now) page.now kept.planes kept.report }
    requires outputs { map (λ file. file.now) outputs.now ≡ written_plates (keep_in command.now) }
    requires count { plates page.now ≡ length command.now.plates.now }
    requires few { plates page.now ≤ most_plates }
    ensures { PutsPage (keep_in command.now) page.now (R.state rack.old) (R.state rack.new) result }
{
    let _valid = page.plates();
    let Kept { planes, report } = kept;
    match write_page(rack, outputs, planes, command.report, report.as_slice()) {
        Ok(()) => Ok(()),
        Err(error) => Err(TrapkeepError::Page(error)),
    }
}

/// Draws the inks of a page back, and writes its plates and its report. All memory is allocated before the first file is
/// created.
pub(crate) fn put_page<R: Rack>(
    alloc: Global,
    command: &KeepArgs<'_>,
    page: &Page,
    rack: &mut R,
) -> Result<(), TrapkeepError>
    requires within { IsWithin command.now }
    requires count { plates page.now ≡ length command.now.plates.now }
    ensures { PutsPage (keep_in command.now) page.now (R.state rack.old) (R.state rack.new) result }
{
    let _valid = page.plates();
    if is_wide(command, page) {
        return Err(TrapkeepError::TooWide);
    }
    match (
        plate_outputs(alloc, command.plates),
        kept_of(alloc, command, page),
    ) {
        (Ok(outputs), Ok(kept)) => write_kept(command, page, kept, outputs.as_slice(), rack),
        _ => Err(TrapkeepError::Page(CommonError::Memory)),
    }
}
