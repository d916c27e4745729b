use super::{Look, Pieces, SET, judge, set_ends};
use std::alloc::Global;
use std::process::Abort;

const TITLE: &[u8] = b"trap set\n";

const PAGE: &[u8] = b"page 6 1 255 plates 2\n";

// Texts that are no set, and the first line that is bad.
const BAD: &[(&[u8], u32)] = &[
    // the first line with a byte more, a zero, a double space, or CR LF
    (
        b"trap set \npage 6 1 255 plates 2\nrun 0 2 2 255 255\nend\n",
        1,
    ),
    (
        b"0trap set\npage 6 1 255 plates 2\nrun 0 2 2 255 255\nend\n",
        1,
    ),
    (
        b"trap  set\npage 6 1 255 plates 2\nrun 0 2 2 255 255\nend\n",
        1,
    ),
    (
        b"trap set\r\npage 6 1 255 plates 2\nrun 0 2 2 255 255\nend\n",
        1,
    ),
    (
        b"\ntrap set\npage 6 1 255 plates 2\nrun 0 2 2 255 255\nend\n",
        1,
    ),
    // the same of the second
    (
        b"trap set\npage 6 1 255 plates 2 \nrun 0 2 2 255 255\nend\n",
        2,
    ),
    (
        b"trap set\npage 06 1 255 plates 2\nrun 0 2 2 255 255\nend\n",
        2,
    ),
    (
        b"trap set\npage 6 01 255 plates 2\nrun 0 2 2 255 255\nend\n",
        2,
    ),
    (
        b"trap set\npage 6 1 0255 plates 2\nrun 0 2 2 255 255\nend\n",
        2,
    ),
    (
        b"trap set\npage 6 1 255 plates 02\nrun 0 2 2 255 255\nend\n",
        2,
    ),
    (
        b"trap set\npage  6 1 255 plates 2\nrun 0 2 2 255 255\nend\n",
        2,
    ),
    (
        b"trap set\npage 6 1 255  plates 2\nrun 0 2 2 255 255\nend\n",
        2,
    ),
    (
        b"trap set\npage 6 1 255 plates 2\r\nrun 0 2 2 255 255\nend\n",
        2,
    ),
    // numbers out of range
    (
        b"trap set\npage 0 1 255 plates 2\nrun 0 2 2 255 255\nend\n",
        2,
    ),
    (b"trap set\npage 16385 1 255 plates 2\nend\n", 2),
    (b"trap set\npage 6 0 255 plates 2\nend\n", 2),
    (b"trap set\npage 6 16385 255 plates 2\nend\n", 2),
    (b"trap set\npage 6 1 0 plates 2\nend\n", 2),
    (b"trap set\npage 6 1 65536 plates 2\nend\n", 2),
    (b"trap set\npage 6 1 255 plates 0\nend\n", 2),
    (b"trap set\npage 6 1 255 plates 17\nend\n", 2),
    (b"trap set\npage 12500 12801 255 plates 1\nend\n", 2),
    (b"trap set\npage 12500 12800 255 plates 2\nend\n", 2),
    (
        b"trap set\npage 4294967302 1 255 plates 2\nrun 0 2 2 255 255\nend\n",
        2,
    ),
    (b"trap set\nrun 0 2 2 255 255\nend\n", 2),
    // the third line with a byte more, a zero, a double space, or CR LF
    (
        b"trap set\npage 6 1 255 plates 2\nrun 0 2 2 255 255 \nend\n",
        3,
    ),
    (
        b"trap set\npage 6 1 255 plates 2\nrun 00 2 2 255 255\nend\n",
        3,
    ),
    (
        b"trap set\npage 6 1 255 plates 2\nrun 0 02 2 255 255\nend\n",
        3,
    ),
    (
        b"trap set\npage 6 1 255 plates 2\nrun 0 2 02 255 255\nend\n",
        3,
    ),
    (
        b"trap set\npage 6 1 255 plates 2\nrun 0 2 2 0255 255\nend\n",
        3,
    ),
    (
        b"trap set\npage 6 1 255 plates 2\nrun  0 2 2 255 255\nend\n",
        3,
    ),
    (
        b"trap set\npage 6 1 255 plates 2\nrun 0 2 2 255  255\nend\n",
        3,
    ),
    (
        b"trap set\npage 6 1 255 plates 2\nrun 0 2 2 255 255\r\nend\n",
        3,
    ),
    // a tint too few, one too many, and one above the maxval
    (b"trap set\npage 6 1 255 plates 2\nrun 0 2 2 255\nend\n", 3),
    (
        b"trap set\npage 6 1 255 plates 2\nrun 0 2 2 255 255 0\nend\n",
        3,
    ),
    (
        b"trap set\npage 6 1 255 plates 2\nrun 0 2 2 256 255\nend\n",
        3,
    ),
    (
        b"trap set\npage 6 1 255 plates 2\nrun 0 2 2 255 256\nend\n",
        3,
    ),
    // runs that leave the page, or have no sample
    (
        b"trap set\npage 6 1 255 plates 2\nrun 0 5 2 255 255\nend\n",
        3,
    ),
    (
        b"trap set\npage 6 1 255 plates 2\nrun 0 6 1 255 255\nend\n",
        3,
    ),
    (
        b"trap set\npage 6 1 255 plates 2\nrun 1 0 1 255 255\nend\n",
        3,
    ),
    (
        b"trap set\npage 6 1 255 plates 2\nrun 0 2 0 255 255\nend\n",
        3,
    ),
    (
        b"trap set\npage 6 1 255 plates 2\nrun 0 4294967295 2 255 255\nend\n",
        3,
    ),
    // runs that overlap, fall back, or stand twice
    (
        b"trap set\npage 6 1 255 plates 2\nrun 0 2 2 255 255\nrun 0 3 1 255 255\nend\n",
        4,
    ),
    (
        b"trap set\npage 6 1 255 plates 2\nrun 0 2 2 255 255\nrun 0 1 1 255 255\nend\n",
        4,
    ),
    (
        b"trap set\npage 6 1 255 plates 2\nrun 0 2 2 255 255\nrun 0 2 2 255 255\nend\n",
        4,
    ),
    // the last line with a byte more, one less, or CR LF
    (
        b"trap set\npage 6 1 255 plates 2\nrun 0 2 2 255 255\nend \n",
        4,
    ),
    (
        b"trap set\npage 6 1 255 plates 2\nrun 0 2 2 255 255\nen\n",
        4,
    ),
    (
        b"trap set\npage 6 1 255 plates 2\nrun 0 2 2 255 255\nend\r\n",
        4,
    ),
    (
        b"trap set\npage 6 1 255 plates 2\nrun 0 2 2 255 255\n\nend\n",
        4,
    ),
    // bytes after it
    (
        b"trap set\npage 6 1 255 plates 2\nrun 0 2 2 255 255\nend\n\n",
        5,
    ),
    (
        b"trap set\npage 6 1 255 plates 2\nrun 0 2 2 255 255\nend\nend\n",
        5,
    ),
    (
        b"trap set\npage 6 1 255 plates 2\nrun 0 2 2 255 255\nend\n ",
        5,
    ),
];

// The table stands in a function of its own: a function that names it is proved with all its rows.
fn bad_sets() -> &'static [(&'static [u8], u32)] {
    BAD
}

fn line_of(rt: &impl Abort, alloc: Global, line: u32) -> String {
    format!(in alloc; "set: BadLine {line}\n").expect(rt, "no memory")
}

fn is_bad_at(rt: &impl Abort, alloc: Global, set: Pieces<'_>, line: u32) -> bool {
    let reported = line_of(rt, alloc, line);
    set_ends(rt, alloc, set, 8, Look::Refused(reported.as_str()))
}

#[test]
fn the_first_bad_line_is_reported(rt: HostRuntime) {
    for (place, (set, line)) in bad_sets().iter().enumerate() {
        let is = is_bad_at(&rt, rt.alloc(), &[*set], *line);
        judge(&rt, is, "bad set", place as u64);
    }
}

// How many lines end in the text.
fn line_count(text: &[u8]) -> u32 {
    let mut count = 0u32;
    for byte in text {
        if *byte == b'\n' {
            count = count.saturating_add(1);
        }
    }
    count
}

fn is_bad_where_cut(rt: &impl Abort, alloc: Global, count: usize) -> bool {
    let prefix = SET.get(..count).unwrap_or(SET);
    is_bad_at(rt, alloc, &[prefix], line_count(prefix).saturating_add(1))
}

// A line that is cut is bad, and so is one that is missing.
#[test]
fn a_set_that_is_cut_lacks_a_line(rt: HostRuntime) {
    for count in 0..SET.len() {
        let is = is_bad_where_cut(&rt, rt.alloc(), count);
        judge(&rt, is, "cut to", count as u64);
    }
}

// Whether a third line of `count` bytes is bad.
fn is_long_line_bad(rt: &impl Abort, alloc: Global, count: usize) -> bool {
    let zeros = b"0"
        .repeat(alloc, count.saturating_sub(1))
        .expect(rt, "no memory");
    is_bad_at(rt, alloc, &[TITLE, PAGE, zeros.as_slice(), b"\nend\n"], 3)
}

// A line may be as long as the buffer or longer, and is bad.
#[test]
fn long_lines_are_bad(rt: HostRuntime) {
    for count in [159usize, 160, 161, 162, 320, 321, 5000] {
        let is = is_long_line_bad(&rt, rt.alloc(), count);
        judge(&rt, is, "bytes", count as u64);
    }
}
