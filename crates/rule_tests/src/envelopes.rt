ghost use Rattle.std.specs.Prelude.{◌≡◌, ◌≤◌, ◌<◌, ◌+◌, ℕ, length};
ghost use Rattle.row_envelope.specs.Envelope.{Rising, arm_at};

use page_model::arms::Arm;
use page_model::steps::Steps;
use row_envelope::{HullBuf, nearest_row};
use std::marker::Brand;
use std::sync::ledger::{Blank, Ledger};
use std::test::Fail;

/// The places of the nearest arms of a row of three samples.
fn places<L: Ledger>(arms: &[Arm], hull: &mut HullBuf, blank: Blank) -> [Option<u32>; 3]
    requires order { Rising arms.now }
    requires inside { (k : ℕ) → k < length arms.now → (arm_at arms.now k).column + 2 ≤ 6 }
    requires hull { hull.old.columns ≡ 5 }
    requires name { blank.name ≡ L.name }
    requires parts { blank.parts ≡ L.parts }
    requires some { 0 < L.parts }
    ensures { hull.new.columns ≡ 5 }
{
    let mut steps = Steps::<L>::new(blank);
    let mut out = [Some(9); 3];
    nearest_row(arms, 3, &mut out, hull, &mut steps);
    out
}

#[test]
fn the_left_arm_is_nearest_where_two_are_as_near(rt: HostRuntime) -> Result<(), Fail> {
    let mut hull = HullBuf::new(rt.alloc(), 3)?;
    let level = [Arm::new(1, 0), Arm::new(3, 0)];
    assert_eq!(rt;
        places::<Brand>(&level, &mut hull, Blank::new(1)),
        [Some(0), Some(0), Some(1)]
    );
    let slanted = [Arm::new(0, 2), Arm::new(4, 0)];
    assert_eq!(rt;
        places::<Brand>(&slanted, &mut hull, Blank::new(1)),
        [Some(0), Some(1), Some(1)]
    );
    assert_eq!(rt; places::<Brand>(&[], &mut hull, Blank::new(1)), [None; 3]);
    Ok(())
}
