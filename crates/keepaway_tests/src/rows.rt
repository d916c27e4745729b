// Rows of small fields, whose tints were worked out by hand.

ghost use Rattle.std.specs.Prelude.{◌≡◌, ◌<◌, ◌≤◌, length};

use draw_back::{Field, Reach, draw_row};
use std::test::Fail;

const COVERED: [u8; 25] = [
    2, 2, 2, 2, 2, 2, 2, 2, 2, 2, 2, 2, 0, 2, 2, 2, 2, 2, 2, 2, 2, 2, 2, 2, 2,
];

const HOLE: [u16; 25] = [
    9, 9, 9, 9, 9, 9, 9, 9, 9, 9, 9, 9, 0, 9, 9, 9, 9, 9, 9, 9, 9, 9, 9, 9, 9,
];

/// Row y of the field of five by five pixels with a hole in its middle.
fn round_the_hole(limit: u32, y: usize) -> [u16; 5]
    requires limit { limit ≤ 100 }
    requires row { y < 5 }
{
    let field = Field::new(5, 5, &COVERED, &HOLE);
    let mut row = [7; 5];
    draw_row(&field, Reach::of(limit), y, &mut row);
    row
}

#[test]
fn a_hole_draws_back_a_disk(rt: HostRuntime) -> Result<(), Fail> {
    assert_eq!(rt; round_the_hole(0, 2), [9, 9, 0, 9, 9]);
    assert_eq!(rt; round_the_hole(1, 1), [9, 9, 0, 9, 9]);
    assert_eq!(rt; round_the_hole(1, 2), [9, 0, 0, 0, 9]);
    assert_eq!(rt; round_the_hole(2, 1), [9, 0, 0, 0, 9]);
    assert_eq!(rt; round_the_hole(4, 0), [9, 9, 0, 9, 9]);
    assert_eq!(rt; round_the_hole(5, 0), [9, 0, 0, 0, 9]);
    assert_eq!(rt; round_the_hole(8, 4), [0, 0, 0, 0, 0]);
    Ok(())
}

#[test]
fn the_least_tint_near_by_counts(rt: HostRuntime) -> Result<(), Fail> {
    let tints = [5, 3, 8, 8, 2, 6];
    let field = Field::new(6, 1, &[0, 0, 2, 1, 2, 0], &tints);
    let mut row = [0; 6];
    draw_row(&field, Reach::of(1), 0, &mut row);
    assert_eq!(rt; row, [5, 3, 3, 8, 2, 6]);
    draw_row(&field, Reach::of(4), 0, &mut row);
    assert_eq!(rt; row, [5, 3, 3, 8, 2, 6]);
    Ok(())
}
