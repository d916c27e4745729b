ghost use Rattle.std.specs.Prelude.{◌≡◌, ◌≤◌, ◌<◌, length};
ghost use Rattle.page_model.specs.Limits.{most_reach};

use column_scan::columns;
use page_model::marks::Marks;
use page_model::steps::Steps;
use std::marker::Brand;
use std::sync::ledger::{Blank, Ledger};

/// The answers of a page of three samples, one below the other.
fn answers<L: Ledger>(marks: &[u8], reach2: u32, blank: Blank) -> [u16; 3]
    requires three { length marks.now ≡ 3 }
    requires reach { reach2 ≤ most_reach }
    requires name { blank.name ≡ L.name }
    requires parts { blank.parts ≡ L.parts }
    requires some { 0 < L.parts }
{
    let mut steps = Steps::<L>::new(blank);
    let mut out = [9; 3];
    columns(
        &Marks::new(1, 0, marks),
        1,
        0,
        3,
        reach2,
        &mut out,
        &mut steps,
    );
    out
}

#[test]
fn the_upper_edge_answers_where_two_are_as_near(rt: HostRuntime) {
    for (marks, reach2, expected) in [
        ([2, 2, 0].as_slice(), 2, [258, 256, 256]),
        ([2, 0, 0].as_slice(), 3, [258, 256, 254]),
        ([2, 0, 0].as_slice(), 2, [258, 256, 0]),
        ([0, 2, 0].as_slice(), 3, [260, 258, 256]),
        ([2, 2, 0].as_slice(), 0, [0, 0, 0]),
    ] {
        assert_eq!(rt; answers::<Brand>(marks, reach2, Blank::new(1)), expected);
    }
}
