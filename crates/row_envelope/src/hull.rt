// The hull of a row's arms: the lower envelope of their parabolas, as the list of the arms that are nearest somewhere,
// each with the doubled coordinate at which it begins to be.

ghost use Rattle.std.specs.Prelude.{◌≡◌, ◌≤◌, ◌<◌, ◌+◌, ◌*◌, ◌-◌, length, vec_len, IfOk};
ghost use Rattle.row_envelope.specs.Envelope.{Rising};
ghost use Rattle.row_envelope.specs.Hull.{IsError, IsHull, IsSettled};
ghost use Rattle.page_model.specs.Limits.{most_column, most_side};

use lists::memory::vec_of;
use page_model::arms::Arm;
use page_model::parts::OutOfMemory;
use page_model::steps::Steps;
use std::alloc::Global;
use std::marker::Model;
use std::sync::ledger::Ledger;

/// Buffers for the hull of a row. Contracts see the number of doubled columns of the rows that it was made for, and its
/// capacity.
#[derive(Drop)]
pub struct HullBuf {
    pub(crate) places: Vec<u32>,
    pub(crate) starts: Vec<u32>,
}

impl Model for HullBuf {
    ghost use Rattle.std.specs.Prelude.{◌≡◌, vec_capacity, vec_len};
    ghost use Rattle.row_envelope.specs.Workspace.{Workspace};

    ghost Value = { Workspace };

    ghost view = { λ h. record {
      columns = vec_len h.places;
      places = vec_capacity h.places;
      starts = vec_capacity h.starts;
    } };

    ghost invariant = { λ h. vec_len h.starts ≡ vec_len h.places };
}

impl HullBuf {
    /// Allocates the buffers for rows of `width` samples, which have `2 * width - 1` doubled columns.
    pub fn new(alloc: Global, width: u32) -> Result<HullBuf, OutOfMemory>
        requires some { 1 ≤ width }
        requires narrow { width ≤ most_side }
        ensures { IfOk result (λ h. h.columns ≡ 2 * width - 1) }
    {
        let columns = 2 * width as usize - 1;
        Ok(HullBuf {
            places: vec_of(alloc, 0u32, columns)?,
            starts: vec_of(alloc, 0u32, columns)?,
        })
    }
}

/// The doubled coordinate, up to `last`, from which on the right arm is nearer than the left one: the number of
/// coordinates at which the left arm is at least as near.
fn error<L: Ledger>(left: &Arm, right: &Arm, last: u32, steps: &mut Steps<L>) -> u32
    requires order { left.now.column < right.now.column }
    requires last { last ≤ most_column }
    ensures error { IsError left.now right.now last result }
    ensures step { steps.new ≡ steps.old + 1 }
{
    (left.until(right, last, steps) + 1) as u32
}

/// What is left of a hull when a new arm joins it, and where the new arm begins.
#[derive(Clone, Copy, Drop)]
struct Joint {
    left: usize,
    from: u32,
}

/// Drops the arms at the hull's end that arm i hides.
fn settle<L: Ledger>(
    arms: &[Arm],
    i: usize,
    last: u32,
    places: &[u32],
    starts: &[u32],
    stored: usize,
    steps: &mut Steps<L>,
) -> Joint
    requires order { Rising arms.now }
    requires i { i < length arms.now }
    requires last { last ≤ most_column }
    requires places { stored ≤ length places.now }
    requires starts { stored ≤ length starts.now }
    requires hull { IsHull arms.now i last places.now starts.now stored }
    ensures fewer { result.left ≤ stored }
    ensures settled { IsSettled arms.now i last places.now starts.now result.left result.from }
    ensures cost { steps.new + result.left ≤ steps.old + stored + 1 }
{
    let mut left = stored;
    while left > 0 {
        let top = &arms[places[left - 1] as usize];
        let from = error(top, &arms[i], last, steps);
        if from > starts[left - 1] {
            return Joint { left, from };
        }
        left -= 1;
    }
    Joint { left, from: 0 }
}

/// Builds the hull of all arms, and returns the number of its entries.
pub(crate) fn build_hull<L: Ledger>(
    arms: &[Arm],
    last: u32,
    places: &mut [u32],
    starts: &mut [u32],
    steps: &mut Steps<L>,
) -> usize
    requires order { Rising arms.now }
    requires last { last ≤ most_column }
    requires few { length arms.now ≤ most_column + 1 }
    requires places { length arms.now ≤ length places.old }
    requires starts { length arms.now ≤ length starts.old }
    ensures places { length places.new ≡ length places.old }
    ensures starts { length starts.new ≡ length starts.old }
    ensures hull { IsHull arms.now (length arms.now) last places.new starts.new result }
    ensures cost { steps.new + result ≤ steps.old + 2 * length arms.now }
{
    let mut stored = 0;
    for i in 0..arms.len() {
        let joint = settle(arms, i, last, places, starts, stored, steps);
        places[joint.left] = i as u32;
        starts[joint.left] = joint.from;
        stored = joint.left + 1;
    }
    stored
}
