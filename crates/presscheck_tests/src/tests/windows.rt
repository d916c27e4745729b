use super::{Case, UNTRAPPED, USUAL, ends, judge};
use std::alloc::Global;
use std::process::Abort;

// The text that is printed if `count` samples are at risk, before and after trapping.
fn printed_text(rt: &impl Abort, alloc: Global, radius: u32, count: u32) -> String {
    format!(in alloc; "press check\nradius {radius}\nbefore {count}\nafter {count}\nend\n").expect(
        rt,
        "no memory",
    )
}

fn line_of(rt: &impl Abort, alloc: Global, radius: u32, names: &str) -> String {
    format!(in alloc; "{radius} job {names}").expect(rt, "no memory")
}

// Whether the program prints that `count` samples are at risk, before and after.
fn tells(rt: &impl Abort, alloc: Global, case: Case<'_>, radius: u32, count: u32) -> bool {
    let text = printed_text(rt, alloc, radius, count);
    ends(rt, alloc, case, 0, text.as_str())
}

// Whether the program prints that for a page without trapping.
fn plates_tell(
    rt: &impl Abort,
    alloc: Global,
    (names, plates): (&str, &[&[u8]]),
    radius: u32,
    count: u32,
) -> bool {
    let words = line_of(rt, alloc, radius, names);
    let case = Case {
        words: words.as_str(),
        job: UNTRAPPED,
        plates,
        ..USUAL
    };
    tells(rt, alloc, case, radius, count)
}

fn add(rt: &impl Abort, bytes: &mut Vec<u8>, byte: u8) {
    assert!(rt; bytes.push(byte).is_ok(), "no memory");
}

// A plate of five columns and four rows that is covered but for the sample at that place.
fn plate_of(rt: &impl Abort, alloc: Global, outline: u32) -> Vec<u8> {
    let mut bytes = b"P5\n5 4\n255\n".to_vec(alloc).expect(rt, "no memory");
    for place in 0..20u32 {
        add(rt, &mut bytes, if place == outline { 255 } else { 0 });
    }
    bytes
}

// How many places of a side lie in the window of one of them.
fn window(place: u32, side: u32, radius: u32) -> u32 {
    let last = place.saturating_add(radius).saturating_add(1).min(side);
    last.saturating_sub(place.saturating_sub(radius))
}

// Each sample in the window of the bare one can be bared, but for itself, which has no ink.
fn count_near(column: u32, row: u32, radius: u32) -> u32 {
    window(column, 5, radius)
        .saturating_mul(window(row, 4, radius))
        .saturating_sub(1)
}

fn is_reported(rt: &impl Abort, alloc: Global, column: u32, row: u32, radius: u32) -> bool {
    let plate = plate_of(rt, alloc, row.saturating_mul(5).saturating_add(column));
    let count = count_near(column, row, radius);
    plates_tell(rt, alloc, ("Cyan:in0", &[plate.as_slice()]), radius, count)
}

// Whether that holds of each place of a row.
fn row_is_reported(rt: &impl Abort, alloc: Global, row: u32, radius: u32) -> bool {
    for column in 0..5 {
        if !is_reported(rt, alloc, column, row, radius) {
            return false;
        }
    }
    true
}

#[test]
fn a_window_ends_at_each_border(rt: HostRuntime) {
    for radius in [0u32, 1, 2, 3, 4, 5, 16] {
        for row in 0..4 {
            let is = row_is_reported(&rt, rt.alloc(), row, radius);
            judge(
                &rt,
                is,
                "radius and row",
                u64::from(radius) * 10 + u64::from(row),
            );
        }
    }
}

const NAMES: &str =
    "A:in0 B:in1 C:in2 D:in3 E:in4 F:in5 G:in6 H:in7 I:in8 J:in9 K:in10 L:in11 M:in12 N:in13 O:in14 P:in15";

// Plate c of sixteen is bare in place c of seventeen: a place is at risk where it is near both the first and the last.
const SIXTEEN: &[&[u8]] = &[
    b"P5\n17 1\n255\n\xFF\0\0\0\0\0\0\0\0\0\0\0\0\0\0\0\0",
    b"P5\n17 1\n255\n\0\xFF\0\0\0\0\0\0\0\0\0\0\0\0\0\0\0",
    b"P5\n17 1\n255\n\0\0\xFF\0\0\0\0\0\0\0\0\0\0\0\0\0\0",
    b"P5\n17 1\n255\n\0\0\0\xFF\0\0\0\0\0\0\0\0\0\0\0\0\0",
    b"P5\n17 1\n255\n\0\0\0\0\xFF\0\0\0\0\0\0\0\0\0\0\0\0",
    b"P5\n17 1\n255\n\0\0\0\0\0\xFF\0\0\0\0\0\0\0\0\0\0\0",
    b"P5\n17 1\n255\n\0\0\0\0\0\0\xFF\0\0\0\0\0\0\0\0\0\0",
    b"P5\n17 1\n255\n\0\0\0\0\0\0\0\xFF\0\0\0\0\0\0\0\0\0",
    b"P5\n17 1\n255\n\0\0\0\0\0\0\0\0\xFF\0\0\0\0\0\0\0\0",
    b"P5\n17 1\n255\n\0\0\0\0\0\0\0\0\0\xFF\0\0\0\0\0\0\0",
    b"P5\n17 1\n255\n\0\0\0\0\0\0\0\0\0\0\xFF\0\0\0\0\0\0",
    b"P5\n17 1\n255\n\0\0\0\0\0\0\0\0\0\0\0\xFF\0\0\0\0\0",
    b"P5\n17 1\n255\n\0\0\0\0\0\0\0\0\0\0\0\0\xFF\0\0\0\0",
    b"P5\n17 1\n255\n\0\0\0\0\0\0\0\0\0\0\0\0\0\xFF\0\0\0",
    b"P5\n17 1\n255\n\0\0\0\0\0\0\0\0\0\0\0\0\0\0\xFF\0\0",
    b"P5\n17 1\n255\n\0\0\0\0\0\0\0\0\0\0\0\0\0\0\0\xFF\0",
];

fn sixteen() -> (&'static str, &'static [&'static [u8]]) {
    (NAMES, SIXTEEN)
}

#[test]
fn sixteen_plates_shift_each_by_itself(rt: HostRuntime) {
    for (radius, count) in [
        (0u32, 0u32),
        (7, 0),
        (8, 2),
        (9, 4),
        (14, 14),
        (15, 16),
        (16, 17),
    ] {
        let is = plates_tell(&rt, rt.alloc(), sixteen(), radius, count);
        judge(&rt, is, "radius", u64::from(radius));
    }
}
