// The new tints of rows, each sample with its decider.

ghost use Rattle.std.specs.Prelude.{◌≡◌, ◌<◌, ◌≤◌, ◌+◌, ◌*◌, ◌-◌, ℕ, length, slice_index, None};
ghost use Rattle.std.specs.Option.{ForSome};
ghost use Rattle.row_values.specs.Arms.{AreAnswers};
ghost use Rattle.row_values.specs.Nearest.{AreDeciders, AreKnown};
ghost use Rattle.row_values.specs.Quiet.{IsRowTo, is_far_off};
ghost use Rattle.row_values.specs.Workspace.{Serves};
ghost use Rattle.row_values.specs.Rows.{HoldsAnswers, HoldsTints, HoldsZones, doubled, tint_value};
ghost use Rattle.page_model.specs.Columns.{column_decider};
ghost use Rattle.page_model.specs.Page.{InPage, height, plates, width};
ghost use Rattle.page_model.specs.Reach.{page_reach};
ghost use Rattle.page_model.specs.Tints.{new};
ghost use Rattle.page_model.specs.Zones.{AreZones};
ghost use Rattle.page_model.specs.Limits.{most_reach, most_side};

use crate::arms::edge_at;
use crate::nearest::nearest_arms;
use crate::quiet::{are_quiet, is_quiet};
use crate::row_buffers::RowBuffers;
use crate::rows::{Rows, row_of, row_of_bytes};
use crate::tint_rows::{copy_row, put_tints};
use page_model::edges::squared_distance;
use page_model::page::Page;
use page_model::parts::{At, EdgeAt};
use trap_color::trap_sample;

/// The number of samples that are tested together, at most.
const SPAN: u32 = 32;

/// Whether there is no edge, or it is farther from p than the widest trap of the page.
fn is_far(p: At, nearest: Option<EdgeAt>, reach2: u32) -> bool
    requires px { p.x < most_side }
    requires py { p.y < most_side }
    requires edge { ForSome nearest (λ e. (e.x2 < 2 * most_side) × (e.y2 < 2 * most_side)) }
    requires reach { reach2 ≤ most_reach }
    ensures { result ≡ is_far_off p reach2 nearest }
{
    match nearest {
        Some(e) => (reach2 + 1) * (reach2 + 1) <= squared_distance(p, e),
        None => true,
    }
}

/// Writes the new tints of p to the row; its decider comes from the row's columns. The buffer has a place for each
/// plate.
fn trap_at(
    page: &Page,
    zones: &[u8],
    p: At,
    nearest: Option<EdgeAt>,
    reach2: u32,
    tints: &mut [u16],
    out: &mut [u16],
)
    requires sample { InPage page.now p }
    requires zones { AreZones page.now p.y zones.now }
    requires reach { reach2 ≡ page_reach page.now }
    requires few { reach2 ≤ most_reach }
    requires edge { nearest ≡ column_decider page.now (page_reach page.now) p }
    requires tints { length tints.old ≡ plates page.now }
    requires out { IsRowTo page.now p.y p.x out.old }
    ensures tints { length tints.new ≡ plates page.now }
    ensures out { IsRowTo page.now p.y (p.x + 1) out.new }
{
    let _valid = page.plates();
    if is_far(p, nearest, reach2) {
        return;
    }
    let zone = u32::from(zones[p.x as usize]);
    if trap_sample(page, p, zone, nearest, tints) {
        put_tints(page, p.y, p.x, tints, out);
    }
}

/// A row whose deciders are known.
#[derive(Clone, Copy, Drop)]
struct DecidedRow<'a> {
    y: u32,
    /// The widest trap of the page, in half-samples.
    reach2: u32,
    /// The zone of each sample.
    zones: &'a [u8],
    /// The answer of each doubled column, and the columns of the arms.
    codes: &'a [u16],
    columns: &'a [u32],
    /// The index of each sample's nearest arm.
    places: &'a [Option<u32>],
}

/// Traps `count` samples of a row from x on. Where no arm is within reach of them, all are skipped.
fn trap_some(
    page: &Page,
    row: &DecidedRow<'_>,
    x: u32,
    count: u32,
    tints: &mut [u16],
    out: &mut [u16],
)
    requires zones { AreZones page.now row.now.y row.now.zones.now }
    requires row { row.now.y < height page.now }
    requires reach { row.now.reach2 ≡ page_reach page.now }
    requires few { row.now.reach2 ≤ most_reach }
    requires places { length row.now.places.now ≡ width page.now }
    requires known { AreKnown (width page.now) row.now.y row.now.codes.now row.now.columns.now
        row.now.places.now }
    requires deciders { AreDeciders page.now row.now.reach2 row.now.y row.now.codes.now
        row.now.columns.now row.now.places.now }
    requires answers { AreAnswers page.now (page_reach page.now) row.now.y (doubled page.now)
        row.now.codes.now }
    requires some { 1 ≤ count }
    requires inside { x + count ≤ width page.now }
    requires tints { length tints.old ≡ plates page.now }
    requires out { IsRowTo page.now row.now.y x out.old }
    ensures tints { length tints.new ≡ plates page.now }
    ensures out { IsRowTo page.now row.now.y (x + count) out.new }
{
    let _valid = page.plates();
    let y = row.y;
    if are_quiet(page, y, row.codes, row.reach2, x, count) {
        return;
    }
    for k in x..x + count {
        let nearest = edge_at(row.codes, y, row.columns, row.places[k as usize]);
        trap_at(
            page,
            row.zones,
            At { x: k, y },
            nearest,
            row.reach2,
            tints,
            out,
        );
    }
}

/// Traps the samples of a row.
fn trap_samples(page: &Page, row: &DecidedRow<'_>, tints: &mut [u16], out: &mut [u16])
    requires zones { AreZones page.now row.now.y row.now.zones.now }
    requires row { row.now.y < height page.now }
    requires reach { row.now.reach2 ≡ page_reach page.now }
    requires few { row.now.reach2 ≤ most_reach }
    requires places { length row.now.places.now ≡ width page.now }
    requires known { AreKnown (width page.now) row.now.y row.now.codes.now row.now.columns.now
        row.now.places.now }
    requires deciders { AreDeciders page.now row.now.reach2 row.now.y row.now.codes.now
        row.now.columns.now row.now.places.now }
    requires answers { AreAnswers page.now (page_reach page.now) row.now.y (doubled page.now)
        row.now.codes.now }
    requires tints { length tints.old ≡ plates page.now }
    requires out { IsRowTo page.now row.now.y 0 out.old }
    ensures tints { length tints.new ≡ plates page.now }
    ensures out { IsRowTo page.now row.now.y (width page.now) out.new }
{
    let width = page.width();
    let mut x = 0;
    while x < width {
        let count = (width - x).min(SPAN);
        trap_some(page, row, x, count, tints, out);
        x += count;
    }
}

/// Traps the samples of a row, whose deciders it looks for.
fn trap_row(
    page: &Page,
    y: u32,
    zones: &[u8],
    codes: &[u16],
    out: &mut [u16],
    workspace: &mut RowBuffers,
)
    requires row { y < height page.now }
    requires zones { AreZones page.now y zones.now }
    requires codes { AreAnswers page.now (page_reach page.now) y (doubled page.now) codes.now }
    requires workspace { Serves workspace.old page.now }
    requires out { IsRowTo page.now y 0 out.old }
    ensures out { IsRowTo page.now y (width page.now) out.new }
    ensures workspace { workspace.new ≡ workspace.old }
{
    let reach2 = page.reach2();
    let arms = workspace.arms.as_mut_slice();
    let columns = workspace.columns.as_mut_slice();
    let places = workspace.places.as_mut_slice();
    nearest_arms(
        page,
        codes,
        y,
        reach2,
        arms,
        columns,
        places,
        &mut workspace.hull,
    );
    let tints = workspace.tints.as_mut_slice();
    let row = DecidedRow {
        y,
        reach2,
        zones,
        codes,
        columns,
        places,
    };
    trap_samples(page, &row, tints, out);
}

/// Writes the new tints of a row, which are its own where no edge is within reach.
fn fill_row(
    page: &Page,
    y: u32,
    zones: &[u8],
    codes: &[u16],
    out: &mut [u16],
    workspace: &mut RowBuffers,
)
    requires row { y < height page.now }
    requires zones { AreZones page.now y zones.now }
    requires codes { AreAnswers page.now (page_reach page.now) y (doubled page.now) codes.now }
    requires workspace { Serves workspace.old page.now }
    requires out { length out.old ≡ plates page.now * width page.now }
    ensures out { IsRowTo page.now y (width page.now) out.new }
    ensures workspace { workspace.new ≡ workspace.old }
{
    copy_row(page, y, out);
    if !is_quiet(page, y, codes) {
        trap_row(page, y, zones, codes, out, workspace);
    }
}

/// Writes the new tints of row y, plate after plate, from the zones of its samples and its column answers. Where no
/// edge is within reach of the row, it only copies the row's tints.
pub fn make_row(
    page: &Page,
    y: u32,
    zones: &[u8],
    codes: &[u16],
    out: &mut [u16],
    workspace: &mut RowBuffers,
)
    requires row { y < height page.now }
    requires zones { AreZones page.now y zones.now }
    requires codes { AreAnswers page.now (page_reach page.now) y (doubled page.now) codes.now }
    requires workspace { Serves workspace.old page.now }
    requires out { length out.old ≡ plates page.now * width page.now }
    ensures tints { (c x : ℕ) → c < plates page.now → x < width page.now
        → slice_index out.new (c * width page.now + x) ≡ new page.now (record { x = x; y = y }) c }
    ensures values { (o : ℕ) → o < plates page.now * width page.now
        → slice_index out.new o ≡ tint_value page.now y o }
    ensures len { length out.new ≡ length out.old }
    ensures workspace { workspace.new ≡ workspace.old }
{
    let _valid = page.plates();
    fill_row(page, y, zones, codes, out, workspace);
}

/// Writes the new tints of row k of these rows.
fn write_tints(
    page: &Page,
    rows: Rows,
    k: u32,
    zones: &[u8],
    codes: &[u16],
    out: &mut [u16],
    workspace: &mut RowBuffers,
)
    requires zones { HoldsZones page.now rows zones.now }
    requires answers { HoldsAnswers page.now rows codes.now }
    requires row { k < rows.count }
    requires inside { rows.first + rows.count ≤ height page.now }
    requires out { length out.old ≡ rows.count * (plates page.now * width page.now) }
    requires workspace { Serves workspace.old page.now }
    ensures here { (o : ℕ) → o < plates page.now * width page.now
        → slice_index out.new (k * (plates page.now * width page.now) + o)
        ≡ tint_value page.now (rows.first + k) o }
    ensures kept { (i : ℕ) → i < k * (plates page.now * width page.now)
        → slice_index out.new i ≡ slice_index out.old i }
    ensures len { length out.new ≡ length out.old }
    ensures workspace { workspace.new ≡ workspace.old }
{
    let width = page.width() as usize;
    let wide = page.plates() as usize * width;
    let start = k as usize * wide;
    let here = row_of_bytes(zones, width, k as usize);
    let row = row_of(codes, 2 * width - 1, k as usize);
    make_row(
        page,
        rows.first + k,
        here,
        row,
        &mut out[start..start + wide],
        workspace,
    );
}

/// Writes the new tints of these rows, in each row plate after plate, from the zones of their samples and their column
/// answers.
pub fn make_tints(
    page: &Page,
    rows: Rows,
    zones: &[u8],
    codes: &[u16],
    out: &mut [u16],
    workspace: &mut RowBuffers,
)
    requires zones { HoldsZones page.now rows zones.now }
    requires answers { HoldsAnswers page.now rows codes.now }
    requires inside { rows.first + rows.count ≤ height page.now }
    requires out { length out.old ≡ rows.count * (plates page.now * width page.now) }
    requires workspace { Serves workspace.old page.now }
    ensures tints { HoldsTints page.now rows out.new }
    ensures len { length out.new ≡ length out.old }
    ensures workspace { workspace.new ≡ workspace.old }
{
    for k in 0..rows.count {
        write_tints(page, rows, k, zones, codes, out, workspace);
    }
}
