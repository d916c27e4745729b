ghost use Rattle.std.specs.Prelude.{◌≡◌, ◌+◌, ◌<◌, ◌≤◌, ◌*◌, ℕ, length, slice_range, slice_index};
ghost use Rattle.page_model.specs.Limits.{most_plates, most_side};
ghost use Rattle.page_model.specs.Planes.{tints_of};
ghost use Rattle.page_model.specs.Shapes.{AreOneShape, wide, tall};
ghost use Rattle.misregister.specs.Risk.{is_outline};
ghost use Rattle.misregister.specs.Sweep.{bit};

use page_model::parts::PlaneList;
use page_model::steps::Steps;
use std::marker::Model;
use std::sync::ledger::Ledger;

/// Planes of one shape, which can be asked for each sample whether a plate is bare there.
#[derive(Drop)]
pub struct Sheet<'a> {
    planes: &'a PlaneList,
}

impl<'a> Model for Sheet<'a> {
    ghost use Rattle.std.specs.Prelude.{List};
    ghost use Rattle.page_model.specs.declared.parts.Plane.{Plane};
    ghost use Rattle.page_model.specs.Shapes.{AreOneShape};

    ghost Value = { List Plane };

    ghost view = { λ s. s.planes.now };

    ghost invariant = { λ s. AreOneShape s.planes.now };
}

impl<'a> Sheet<'a> {
    /// A view of planes of one shape.
    pub fn new(planes: &'a PlaneList) -> Sheet<'a>
        requires { AreOneShape planes.now }
        ensures { result ≡ planes.now }
    {
        Sheet { planes }
    }

    /// Whether plate c has no ink on a sample. It takes one step.
    pub fn is_outline<L: Ledger>(&self, c: u32, x: u32, y: u32, steps: &mut Steps<L>) -> bool
        requires plate { c < length self.now }
        requires column { x < wide self.now }
        requires row { y < tall self.now }
        ensures outline { result ≡ is_outline self.now c x y }
        ensures step { steps.new ≡ steps.old + 1 }
    {
        steps.tick();
        let plane = &self.planes.as_slice()[c as usize];
        plane.tints.as_slice()[y as usize * plane.width as usize + x as usize] == 0
    }

    /// Writes for each sample of a row of plate c 2 where it has no ink, else 1. It takes a step for each of them.
    pub(crate) fn outline_row<L: Ledger>(
        &self,
        c: u32,
        y: u32,
        row: &mut [u8],
        steps: &mut Steps<L>,
    )
        requires plate { c < length self.now }
        requires row { y < tall self.now }
        requires wide { length row.old ≡ wide self.now }
        ensures noted { (x : ℕ) → x < wide self.now
            → slice_index row.new x ≡ 1 + bit (is_outline self.now c x y) }
        ensures steps { steps.new ≡ steps.old + wide self.now }
    {
        let tints = self.row(c, y, steps);
        for x in 0..tints.len() {
            row[x] = if tints[x] == 0 { 2 } else { 1 };
        }
    }

    /// The number of rows.
    pub(crate) fn height(&self) -> u32
        ensures height { result ≡ tall self.now }
        ensures low { result ≤ most_side }
        ensures wide { 1 ≤ wide self.now }
        ensures narrow { wide self.now ≤ most_side }
        ensures few { length self.now ≤ most_plates }
    {
        self.planes.as_slice()[0].height
    }

    /// The tints of plate c in a row, with a step for each of them: no other call of the crate returns tints.
    fn row<L: Ledger>(&self, c: u32, y: u32, steps: &mut Steps<L>) -> &[u16]
        requires plate { c < length self.now }
        requires row { y < tall self.now }
        ensures tints { result.now
            ≡ slice_range (tints_of self.now c)
            (y * wide self.now) (y * wide self.now + wide self.now) }
        ensures wide { length result.now ≡ wide self.now }
        ensures steps { steps.new ≡ steps.old + wide self.now }
    {
        let plane = &self.planes.as_slice()[c as usize];
        let width = plane.width as usize;
        for _ in 0..width {
            steps.tick();
        }
        let first = y as usize * width;
        &plane.tints.as_slice()[first..first + width]
    }
}
