use super::{
    APPLY, CYAN, Case, DISABLED, Look, MAGENTA, SET, USUAL, case_of, ends, judge, set_ends,
};
use std::alloc::Global;
use std::process::Abort;

const DIFFERS: Look<'static> = Look::Refused("set: Differs\n");

// Sets for other plates: that is judged before the third line, whatever it is.
const OTHERS: &[&[u8]] = &[
    b"trap set\npage 5 1 255 plates 2\nend\n",
    b"trap set\npage 6 2 255 plates 2\nend\n",
    b"trap set\npage 6 1 254 plates 2\nend\n",
    b"trap set\npage 6 1 255 plates 1\nend\n",
    b"trap set\npage 6 1 255 plates 3\nrun 0 5 2 255 255\nend\n",
    b"trap set\npage 5 1 255 plates 2\nrun 0 5 2 255 255\nend\n",
    b"trap set\npage 5 1 255 plates 2\n",
    b"trap set\npage 12500 12800 255 plates 1\n\xFF",
    b"trap set\npage 16384 9765 65535 plates 1\nend\n",
];

#[test]
fn a_set_for_other_plates_is_reported_as_such(rt: HostRuntime) {
    for (place, set) in OTHERS.iter().enumerate() {
        let is = set_ends(&rt, rt.alloc(), &[*set], 8, DIFFERS);
        judge(&rt, is, "set", place as u64);
    }
}

// Words and plates that the set of the two plates is not for.
const SHEETS: &[(&str, &[u8])] = &[
    ("apply set in0:out0", MAGENTA),
    ("apply set in0:out0 in1:out1 in1:out2", MAGENTA),
    (APPLY, b"P5\n5 1\n255\n\0\0\0\0\0"),
    (APPLY, b"P5\n6 2\n255\n\0\0\0\0\0\0\0\0\0\0\0\0"),
    (APPLY, b"P5\n6 1\n254\n\0\0\0\0\0\0"),
];

fn differs_on<'a>(rt: &impl Abort, alloc: Global, words: &'a str, magenta: &'a [u8]) -> bool {
    ends(
        rt,
        alloc,
        case_of(words, &[DISABLED], &[CYAN, magenta], &[SET]),
        8,
        DIFFERS,
    )
}

#[test]
fn plates_of_another_page_are_left_alone(rt: HostRuntime) {
    for (place, (words, magenta)) in SHEETS.iter().enumerate() {
        let is = differs_on(&rt, rt.alloc(), words, magenta);
        judge(&rt, is, words, place as u64);
    }
}

// Sixteen plates of two samples.
const MANY: &str =
    "apply set in0:A in1:B in2:C in3:D in4:E in5:F in6:G in7:H in8:I in9:J in10:K in11:L in12:M in13:N in14:O in15:P";

const TWO_SAMPLES: &[u8] = b"P5 2 1 65535\n\x12\x34\x56\x78";

const MANY_SET: &[u8] =
    b"trap set\npage 2 1 65535 plates 16\nrun 0 1 1 0 1 2 3 4 5 6 7 8 9 10 11 12 13 65534 65535\nend\n";

const MANY_WRITTEN: &[&str] = &[
    "A", "B", "C", "D", "E", "F", "G", "H", "I", "J", "K", "L", "M", "N", "O", "P",
];

// The plates with the set on them: of each the second sample has a tint of its own.
const MANY_PLATES: &[Option<&[u8]>] = &[
    Some(b"P5\n2 1\n65535\n\x12\x34\xFF\xFF"),
    Some(b"P5\n2 1\n65535\n\x12\x34\xFF\xFE"),
    Some(b"P5\n2 1\n65535\n\x12\x34\xFF\xFD"),
    Some(b"P5\n2 1\n65535\n\x12\x34\xFF\xFC"),
    Some(b"P5\n2 1\n65535\n\x12\x34\xFF\xFB"),
    Some(b"P5\n2 1\n65535\n\x12\x34\xFF\xFA"),
    Some(b"P5\n2 1\n65535\n\x12\x34\xFF\xF9"),
    Some(b"P5\n2 1\n65535\n\x12\x34\xFF\xF8"),
    Some(b"P5\n2 1\n65535\n\x12\x34\xFF\xF7"),
    Some(b"P5\n2 1\n65535\n\x12\x34\xFF\xF6"),
    Some(b"P5\n2 1\n65535\n\x12\x34\xFF\xF5"),
    Some(b"P5\n2 1\n65535\n\x12\x34\xFF\xF4"),
    Some(b"P5\n2 1\n65535\n\x12\x34\xFF\xF3"),
    Some(b"P5\n2 1\n65535\n\x12\x34\xFF\xF2"),
    Some(b"P5\n2 1\n65535\n\x12\x34\0\x01"),
    Some(b"P5\n2 1\n65535\n\x12\x34\0\0"),
];

const SIXTEEN: Case<'static> = Case {
    words: MANY,
    plates: &[TWO_SAMPLES; 16],
    set: &[MANY_SET],
    written: MANY_WRITTEN,
    ..USUAL
};

fn sixteen() -> Case<'static> {
    SIXTEEN
}

fn sixteen_plates() -> &'static [Option<&'static [u8]>] {
    MANY_PLATES
}

#[test]
fn sixteen_plates_get_a_tint_each(rt: HostRuntime) {
    let is = ends(
        &rt,
        rt.alloc(),
        sixteen(),
        0,
        Look::Written(sixteen_plates()),
    );
    judge(&rt, is, "plates", 16);
}
