// The rows of a core, several rows of all plates at once.

ghost use Rattle.std.specs.Prelude.{◌≡◌, ◌+◌, ◌*◌, ◌<◌, ◌≤◌, ◌++◌, ℕ, drop, length, map, take};
ghost use Rattle.page_model.specs.Page.{maxval, plates, width};
ghost use Rattle.plate_rows.specs.Images.{part_at};
ghost use Rattle.sheet_stream.specs.Cores.{AreOpen, IsCutStrip, WritesCore, core_row_of, core_span_of};

use common_errors::common::CommonError;
use outside::rack::Rack;
use pgm_plates::rows::Header;
use plate_rows::images::write_next;
use sheet_engine::rows::put_strip_row;
use sheet_engine::workspace::StripWorkspace;
use sheet_geometry::spans::{Ruler, Span};
use sheet_geometry::window_sheet::Sheet;

/// How a strip was cut, as a sheet of its own.
#[derive(Clone, Copy, Drop)]
pub struct StripCut {
    pub across: Ruler,
    pub down: Ruler,
    pub row: Span,
}

/// Writes n rows of the core of the strip that was trapped last to `line`, from row k on: those of each plate, one
/// plate after the other.
pub fn put_rows(
    strip: &Sheet,
    cut: &StripCut,
    workspace: &StripWorkspace,
    k: u32,
    n: u32,
    line: &mut [u16],
)
    requires cut { IsCutStrip strip.now cut.now workspace.now }
    requires rows { k + n ≤ cut.now.row.core }
    requires line { length line.old ≡ plates strip.now * (n * width strip.now) }
    ensures long { length line.new ≡ length line.old }
    ensures rows { (c : ℕ) → c < plates strip.now → part_at (n * width strip.now) line.new c
        ≡ core_span_of strip.now cut.now k n c }
{
    let _valid = strip.width();
    let wide = strip.width() as usize;
    let each = n as usize * wide;
    for c in 0..strip.plates() {
        put_plate(strip, cut, workspace, k, n, c, c as usize * each, line);
    }
}

// Writes n rows of the core of one plate, from row k on, to its part of `line`.
fn put_plate(
    strip: &Sheet,
    cut: &StripCut,
    workspace: &StripWorkspace,
    k: u32,
    n: u32,
    c: u32,
    from: usize,
    line: &mut [u16],
)
    requires cut { IsCutStrip strip.now cut.now workspace.now }
    requires rows { k + n ≤ cut.now.row.core }
    requires plate { c < plates strip.now }
    requires workspace { from + n * width strip.now ≤ length line.old }
    ensures { line.new ≡ take from line.old ++ (core_span_of strip.now cut.now k n c
        ++ drop (from + n * width strip.now) line.old) }
{
    let _valid = strip.width();
    let wide = strip.width() as usize;
    for i in 0..n {
        put_row(
            strip,
            cut,
            workspace,
            k + i,
            c,
            from + i as usize * wide,
            line,
        );
    }
}

// Writes row k of the core of one plate to its part of `line`.
fn put_row(
    strip: &Sheet,
    cut: &StripCut,
    workspace: &StripWorkspace,
    k: u32,
    c: u32,
    from: usize,
    line: &mut [u16],
)
    requires cut { IsCutStrip strip.now cut.now workspace.now }
    requires row { k < cut.now.row.core }
    requires plate { c < plates strip.now }
    requires workspace { from + width strip.now ≤ length line.old }
    ensures { line.new ≡ take from line.old ++ (core_row_of strip.now cut.now k c
        ++ drop (from + width strip.now) line.old) }
{
    let _valid = strip.width();
    let wide = strip.width() as usize;
    put_strip_row(
        strip,
        &cut.across,
        &cut.down,
        &cut.row,
        workspace,
        k,
        c,
        &mut line[from..from + wide],
    );
}

// How many of `rows` rows fit into a buffer of `workspace` tints, if each takes `each` tints.
fn rows_at_once(workspace: usize, each: usize, rows: u32) -> u32
    requires some { 1 ≤ each }
    requires workspace { each ≤ workspace }
    requires rows { 1 ≤ rows }
    ensures some { 1 ≤ result }
    ensures few { result ≤ rows }
    ensures fits { result * each ≤ workspace }
{
    (workspace / each).min(rows as usize) as u32
}

/// Writes the rows of the core of the strip that was trapped last, plate k by rack k. `line` is a buffer for some rows
/// of all plates at once, and `bytes` one for encoded samples.
///
/// Where a call of a rack fails, it stops with `Write` and the plate's number.
pub fn write_core<R: Rack>(
    racks: &mut [R],
    header: Header,
    strip: &Sheet,
    cut: &StripCut,
    workspace: &StripWorkspace,
    line: &mut [u16],
    bytes: &mut [u8],
) -> Result<(), CommonError>
    requires racks { plates strip.now ≤ length racks.old }
    requires open { AreOpen header (plates strip.now) (map R.state racks.old) }
    requires cut { IsCutStrip strip.now cut.now workspace.now }
    requires line { plates strip.now * width strip.now ≤ length line.old }
    requires bytes { 2 ≤ length bytes.old }
    requires maxval { header.maxval ≡ maxval strip.now }
    ensures { WritesCore (plates strip.now) header strip.now cut.now (map R.state racks.old)
        (map R.state racks.new) result }
{
    let _valid = strip.width();
    let count = strip.plates() as usize;
    let wide = strip.width() as usize;
    let mut k = 0;
    while k < cut.row.core {
        let n = rows_at_once(line.len(), count * wide, cut.row.core - k);
        let each = n as usize * wide;
        let rows = &mut line[..count * each];
        put_rows(strip, cut, workspace, k, n, rows);
        write_next(racks, count, header, rows, each, bytes)?;
        k += n;
    }
    Ok(())
}
