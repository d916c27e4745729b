// The decider of each sample of a row, from the row's column answers.

ghost use Rattle.std.specs.Prelude.{◌≡◌, ◌≤◌, ◌<◌, ◌+◌, ◌*◌, ◌-◌, ℕ, None, length, slice_index_or};
ghost use Rattle.page_model.specs.Page.{width};
ghost use Rattle.page_model.specs.Limits.{most_reach, most_side};
ghost use Rattle.row_values.specs.Arms.{AreAnswers};
ghost use Rattle.row_values.specs.Nearest.{AreDeciders, AreKnown};
ghost use Rattle.row_envelope.specs.Envelope.{Rising, arm_at, nearest};

use crate::arms::raise_arms;
use page_model::arms::Arm;
use page_model::page::Page;
use page_model::steps::Steps;
use row_envelope::{HullBuf, nearest_row};
use std::marker::Brand;
use std::sync::ledger::{Blank, Ledger};

/// The nearest arms of a row by `nearest_row`, with a step counter of its own.
fn nearest_by<L: Ledger>(
    arms: &[Arm],
    width: u32,
    places: &mut [Option<u32>],
    hull: &mut HullBuf,
    blank: Blank,
)
    requires name { blank.name ≡ L.name }
    requires parts { blank.parts ≡ L.parts }
    requires counting { 0 < L.parts }
    requires some { 1 ≤ width }
    requires narrow { width ≤ most_side }
    requires order { Rising arms.now }
    requires inside { (k : ℕ) → k < length arms.now → (arm_at arms.now k).column + 2 ≤ 2 * width }
    requires hull { hull.old.columns ≡ 2 * width - 1 }
    requires places { length places.old ≡ width }
    ensures len { length places.new ≡ width }
    ensures nearest { (x : ℕ) → x < width → slice_index_or places.new x None ≡ nearest arms.now x }
    ensures hull { hull.new ≡ hull.old }
{
    let mut steps = Steps::<L>::new(blank);
    nearest_row(arms, width, places, hull, &mut steps);
}

/// Writes for each sample of row y the index of its nearest arm to `places`, and the column of each arm to `columns`.
/// `arms` and `hull` are buffers.
pub fn nearest_arms(
    page: &Page,
    codes: &[u16],
    y: u32,
    reach2: u32,
    arms: &mut [Arm],
    columns: &mut [u32],
    places: &mut [Option<u32>],
    hull: &mut HullBuf,
)
    requires row { y ≤ most_side }
    requires reach { reach2 ≤ most_reach }
    requires codes { AreAnswers page.now reach2 y (2 * width page.now - 1) codes.now }
    requires arms { length arms.old ≡ 2 * width page.now - 1 }
    requires columns { length columns.old ≡ 2 * width page.now - 1 }
    requires places { length places.old ≡ width page.now }
    requires hull { hull.old.columns ≡ 2 * width page.now - 1 }
    ensures arms { length arms.new ≡ length arms.old }
    ensures columns { length columns.new ≡ length columns.old }
    ensures places { length places.new ≡ length places.old }
    ensures hull { hull.new ≡ hull.old }
    ensures known { AreKnown (width page.now) y codes.now columns.new places.new }
    ensures deciders { AreDeciders page.now reach2 y codes.now columns.new places.new }
{
    let width = page.width();
    let count = raise_arms(codes, arms, columns);
    let blank = Blank::new(1);
    nearest_by::<Brand>(&arms[..count], width, places, hull, blank);
}
