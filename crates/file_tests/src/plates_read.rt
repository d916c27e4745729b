use crate::fixtures::{Way, add, by, bytes_of, judge, tray_of, write};
use outside::endless_tray::EndlessTray;
use outside::tray::Tray;
use pgm_plates::plate::{PlateError, PlateFault};
use pgm_plates::reading::read_plate;
use std::alloc::Global;
use std::process::Abort;

fn error_by<T: Tray>(alloc: Global, tray: &mut T) -> Option<PlateError> {
    match read_plate(alloc, tray, "one") {
        Ok(_) => None,
        Err(error) => Some(error),
    }
}

// What a file of these bytes is refused for, by such a tray.
fn error_of(rt: &impl Abort, alloc: Global, bytes: &[u8], way: Way) -> Option<PlateError> {
    let mut tray = tray_of(rt, alloc, bytes, way);
    error_by(alloc, &mut tray)
}

// Whether it is that fault.
fn is_fault(error: Option<PlateError>, want: PlateFault) -> bool {
    match error {
        Some(PlateError::Fault(fault)) => fault == want,
        _ => false,
    }
}

fn is_read_fault(error: Option<PlateError>) -> bool {
    matches!(error, Some(PlateError::ReadFault))
}

const PLATES: &[&str] = &[
    "P5 6 1 255\n......",
    "P5\n#x\n006\t1\x0c255 ......",
    "P5#x\r6#y\n1 255\n......",
    "P5 1 1 1 \x01",
    "P5 1 1 255 \x7f",
    "P5 1 1 256 \x01\x00",
    "P5 1 1 65535 \x7f\x7f",
    "P5 2 1 300 \x01\x2c\x00\x00",
    "P5 3 2 100 aaaaab",
    "P5\x0b0000000000000000000001 1 1\r\x00",
];

fn judge_plates(rt: &impl Abort, alloc: Global, grain: usize) {
    for text in PLATES {
        let error = error_of(rt, alloc, text.as_bytes(), by(grain));
        judge(rt, error.is_none(), text, grain as u64);
    }
}

#[test]
fn plate_files_are_read_by_any_grain(rt: HostRuntime) {
    judge_plates(&rt, rt.alloc(), 1);
    judge_plates(&rt, rt.alloc(), 2);
    judge_plates(&rt, rt.alloc(), 3);
    judge_plates(&rt, rt.alloc(), 4096);
}

const FAULTS: &[(&str, PlateFault)] = &[
    ("P2 6 1 255\n......", PlateFault::BadMagic(1)),
    ("p5 6 1 255\n......", PlateFault::BadMagic(0)),
    ("P56 1 255\n......", PlateFault::BadHeader(2)),
    ("P5 -6 1 255\n......", PlateFault::BadHeader(3)),
    ("P5 0 1 255\n.", PlateFault::SideRange(3)),
    ("P5 6 16385 255\n.", PlateFault::SideRange(5)),
    ("P5 000 q", PlateFault::SideRange(3)),
    ("P5 0q", PlateFault::BadHeader(4)),
    ("P5 1#\n6 0 1 ..", PlateFault::MaxvalRange(8)),
    ("P5 16384 16384 255\n.", PlateFault::TooManySamples(9)),
    ("P5 16000 10000 255\n.", PlateFault::Truncated(20)),
    ("P5 16000 10001 ", PlateFault::TooManySamples(9)),
    ("P5 6 1 0\n......", PlateFault::MaxvalRange(7)),
    ("P5 6 1 65536\n......", PlateFault::MaxvalRange(7)),
    ("P5 1 1 65536\n", PlateFault::MaxvalRange(7)),
    (
        "P5 6 1 99999999999999999999999\n......",
        PlateFault::MaxvalRange(7),
    ),
    ("P5 6 1 255#x\n......", PlateFault::BadHeader(10)),
    ("P5 6 1 255", PlateFault::Truncated(10)),
    ("", PlateFault::Truncated(0)),
    ("P5 1 1 1 \x02", PlateFault::SampleAboveMaxval(9)),
    ("P5 1 1 100\ne", PlateFault::SampleAboveMaxval(11)),
    ("P5 1 1 256\n\x01\x01", PlateFault::SampleAboveMaxval(11)),
    ("P5 1 1 256\n\x00", PlateFault::Truncated(12)),
    ("P5 1 1 256 \x01", PlateFault::Truncated(12)),
    ("P5 1 1 256 \x02", PlateFault::Truncated(12)),
    (
        "P5 2 1 300 \x01\x2c\x01\x2d",
        PlateFault::SampleAboveMaxval(13),
    ),
    ("P5 3 2 97 aaaaab", PlateFault::SampleAboveMaxval(15)),
    ("P5 3 2 97 aabbaa", PlateFault::SampleAboveMaxval(12)),
    ("P5 3 2 97 aab", PlateFault::SampleAboveMaxval(12)),
    ("P5 3 2 97 aaaaaa\n", PlateFault::TrailingBytes(16)),
    ("P5 6 1 255\n.......", PlateFault::TrailingBytes(17)),
    ("P5 6 1 255\n.......P5", PlateFault::TrailingBytes(17)),
    ("P5 1 1 256 \x01\x00\x00", PlateFault::TrailingBytes(13)),
];

fn judge_faults(rt: &impl Abort, alloc: Global, grain: usize) {
    for (text, want) in FAULTS {
        let error = error_of(rt, alloc, text.as_bytes(), by(grain));
        judge(rt, is_fault(error, *want), text, grain as u64);
    }
}

#[test]
fn the_first_fault_from_the_left_is_reported(rt: HostRuntime) {
    judge_faults(&rt, rt.alloc(), 1);
    judge_faults(&rt, rt.alloc(), 2);
    judge_faults(&rt, rt.alloc(), 3);
    judge_faults(&rt, rt.alloc(), 4096);
}

const CUT: &[&str] = &[
    "P5\n6 1\n255\n......",
    "P5\n#x\n006\t1\x0c255 ......",
    "P5#\r#\n1 #y\r1#z\n65535\t..",
    "P5 2 2 256\n\x01\x00\x00.\x00.\x00.",
];

fn judge_cuts(rt: &impl Abort, alloc: Global, text: &str) {
    for count in 0..text.len() {
        let prefix = text.as_bytes().get(..count).unwrap_or(b"");
        let error = error_of(rt, alloc, prefix, by(4096));
        let want = PlateFault::Truncated(count as u64);
        judge(rt, is_fault(error, want), text, count as u64);
    }
}

#[test]
fn a_file_that_is_cut_is_truncated_there(rt: HostRuntime) {
    for text in CUT {
        judge_cuts(&rt, rt.alloc(), text);
    }
}

// The words of a plate, each after a gap.
const WORDS: &[&str] = &["1", "1", "255", "."];

// A plate whose four gaps are a space, but for one of them.
fn with_gap(rt: &impl Abort, alloc: Global, place: usize, gap: &str) -> String {
    let mut text = String::from_str(alloc, "P5").expect(rt, "no memory");
    for (number, word) in WORDS.iter().enumerate() {
        write(rt, &mut text, if number == place { gap } else { " " });
        write(rt, &mut text, word);
    }
    text
}

const WHITESPACE: &[&str] = &["\t", "\n", "\x0b", "\x0c", "\r", " "];

const NO_GAPS: &[&str] = &["\x00", "\x08", "\x0e", "\x1f", "!", "%", "\x7f"];

const COMMENTS: &[&str] = &[
    "#\n",
    "#\r",
    "#one#two\n",
    "#1 1 1\r\n",
    "#a\r#b\n",
    "#a\n \t#b\r",
];

fn error_with_gap(rt: &impl Abort, alloc: Global, place: usize, gap: &str) -> Option<PlateError> {
    let text = with_gap(rt, alloc, place, gap);
    error_of(rt, alloc, text.as_bytes(), by(4096))
}

// Looks whether these gaps, each in place of that one, give a plate.
fn judge_gaps(rt: &impl Abort, alloc: Global, place: usize, gaps: &[&str]) {
    for gap in gaps {
        let error = error_with_gap(rt, alloc, place, gap);
        judge(rt, error.is_none(), gap, place as u64);
    }
}

// Looks whether they are no gaps, in a plate whose gap begins at that byte.
fn judge_no_gaps(rt: &impl Abort, alloc: Global, place: usize, at: u64, gaps: &[&str]) {
    for gap in gaps {
        let error = error_with_gap(rt, alloc, place, gap);
        judge(
            rt,
            is_fault(error, PlateFault::BadHeader(at)),
            gap,
            place as u64,
        );
    }
}

// The gaps begin at bytes 2, 4, 6 and 10.
const GAPS: &[(usize, u64)] = &[(0, 2), (1, 4), (2, 6), (3, 10)];

#[test]
fn gaps_are_whitespace(rt: HostRuntime) {
    for (place, at) in GAPS {
        judge_gaps(&rt, rt.alloc(), *place, WHITESPACE);
        judge_no_gaps(&rt, rt.alloc(), *place, *at, NO_GAPS);
    }
}

#[test]
fn gaps_but_the_last_are_comments(rt: HostRuntime) {
    judge_gaps(&rt, rt.alloc(), 0, COMMENTS);
    judge_gaps(&rt, rt.alloc(), 1, COMMENTS);
    judge_gaps(&rt, rt.alloc(), 2, COMMENTS);
    judge_no_gaps(&rt, rt.alloc(), 3, 10, COMMENTS);
}

// A file whose header has that many bytes, of which most are the spaces of its first gap.
fn long_header(rt: &impl Abort, alloc: Global, count: usize, numbers: &str) -> Vec<u8> {
    let mut bytes = b"P5".to_vec(alloc).expect(rt, "no memory");
    for _ in numbers.len() + 2..count {
        add(rt, &mut bytes, b' ');
    }
    assert!(rt;
        bytes.extend_from_slice(numbers.as_bytes()).is_ok(),
        "no memory"
    );
    bytes
}

const LONG: &[(usize, &str, PlateFault)] = &[
    (65_535, "1 1 1\n", PlateFault::Truncated(65_535)),
    (65_536, "1 1 1\n", PlateFault::Truncated(65_536)),
    (65_537, "1 1 1\n", PlateFault::BadHeader(65_536)),
    (65_536, "1 1 1", PlateFault::BadHeader(65_536)),
    (65_535, "1 1 1", PlateFault::Truncated(65_535)),
    (65_536, "1 1 0\n", PlateFault::MaxvalRange(65_534)),
    (65_537, "1 1 0\n", PlateFault::BadHeader(65_536)),
    (65_536, "1 0 ", PlateFault::SideRange(65_534)),
    (65_537, "1 0 ", PlateFault::BadHeader(65_536)),
];

fn error_of_long(
    rt: &impl Abort,
    alloc: Global,
    count: usize,
    numbers: &str,
) -> Option<PlateError> {
    let bytes = long_header(rt, alloc, count, numbers);
    error_of(rt, alloc, &bytes, by(4096))
}

#[test]
fn a_header_has_65536_bytes_at_most(rt: HostRuntime) {
    for (count, numbers, want) in LONG {
        let error = error_of_long(&rt, rt.alloc(), *count, numbers);
        judge(&rt, is_fault(error, *want), numbers, *count as u64);
    }
}

const ENDLESS: &[(&str, u8, PlateFault)] = &[
    ("P5", b' ', PlateFault::BadHeader(65_536)),
    ("P5#", b'#', PlateFault::BadHeader(65_536)),
    ("P5 1", b'1', PlateFault::BadHeader(65_536)),
    (
        "P5\n6 1\n255\n\x00\x00\x00...",
        0,
        PlateFault::TrailingBytes(17),
    ),
    ("P5 16384 9000 1\n", 2, PlateFault::SampleAboveMaxval(16)),
];

fn error_of_endless(rt: &impl Abort, alloc: Global, head: &str, tail: u8) -> Option<PlateError> {
    let mut tray = EndlessTray::new(bytes_of(rt, alloc, head.as_bytes()), tail);
    error_by(alloc, &mut tray)
}

#[test]
fn an_endless_file_is_read_no_further_than_it_decides(rt: HostRuntime) {
    for (head, tail, want) in ENDLESS {
        let error = error_of_endless(&rt, rt.alloc(), head, *tail);
        judge(&rt, is_fault(error, *want), head, u64::from(*tail));
    }
}

// It reads 160 MB.
#[test]
fn a_plate_may_have_160000000_samples(rt: HostRuntime) {
    let error = error_of_endless(&rt, rt.alloc(), "P5 16000 10000 1\n", 1);
    assert!(rt; is_fault(error, PlateFault::TrailingBytes(160_000_017)));
}

// What a plate is refused for whose reads from that place on, or whose call of that number, fail.
fn failing(
    rt: &impl Abort,
    alloc: Global,
    fails_at: Option<u64>,
    call: Option<u64>,
) -> Option<PlateError> {
    let way = Way {
        grain: 4096,
        fails_at,
        call,
    };
    error_of(rt, alloc, b"P5\n6 1\n255\n\x00\x00\x00\xff\xff\xff", way)
}

// Whether it is a read fault, or, where the plate is whole, no error.
fn is_read_so(error: Option<PlateError>, is_whole: bool) -> bool {
    if is_whole {
        error.is_none()
    } else {
        is_read_fault(error)
    }
}

#[test]
fn a_read_that_fails_before_a_fault_is_a_read_fault(rt: HostRuntime) {
    for place in 0..20 {
        let error = failing(&rt, rt.alloc(), Some(place), None);
        judge(&rt, is_read_so(error, place >= 18), "at", place);
    }
}

#[test]
fn a_call_that_fails_before_a_fault_is_a_read_fault(rt: HostRuntime) {
    // `begin`, eleven reads for the header, one for the raster and one after it.
    for call in 0..16 {
        let error = failing(&rt, rt.alloc(), None, Some(call));
        judge(&rt, is_read_so(error, call >= 14), "call", call);
    }
}

// What a plate with a sample above its maxval is refused for whose reads fail from that place on.
fn above_at(rt: &impl Abort, alloc: Global, place: u64) -> Option<PlateError> {
    let way = Way {
        fails_at: Some(place),
        ..by(4096)
    };
    error_of(rt, alloc, b"P5 6 1 1 \x01\x02\x00\x00\x00\x00", way)
}

#[test]
fn a_sample_that_was_read_before_a_failure_is_judged(rt: HostRuntime) {
    for place in 9..11 {
        judge(
            &rt,
            is_read_fault(above_at(&rt, rt.alloc(), place)),
            "at",
            place,
        );
    }
    for place in 11..16 {
        let error = above_at(&rt, rt.alloc(), place);
        judge(
            &rt,
            is_fault(error, PlateFault::SampleAboveMaxval(10)),
            "at",
            place,
        );
    }
}

// A plate of 90,000 samples: its header, a number of samples, and one above the maxval.
fn with_sample_above(rt: &impl Abort, alloc: Global, count: usize) -> Vec<u8> {
    let mut bytes = b"P5 300 300 9\n".to_vec(alloc).expect(rt, "no memory");
    for _ in 0..count {
        add(rt, &mut bytes, 7);
    }
    add(rt, &mut bytes, 10);
    bytes
}

fn error_above(rt: &impl Abort, alloc: Global, count: usize) -> Option<PlateError> {
    let bytes = with_sample_above(rt, alloc, count);
    error_of(rt, alloc, &bytes, by(1000))
}

// By how many samples there are before the one that is above; the last row has one byte more than a plate.
const ABOVE: &[(usize, PlateFault)] = &[
    (0, PlateFault::SampleAboveMaxval(13)),
    (65_535, PlateFault::SampleAboveMaxval(65_548)),
    (65_536, PlateFault::SampleAboveMaxval(65_549)),
    (89_999, PlateFault::SampleAboveMaxval(90_012)),
    (90_000, PlateFault::TrailingBytes(90_013)),
];

#[test]
fn a_sample_is_judged_in_each_piece(rt: HostRuntime) {
    for (count, want) in ABOVE {
        let error = error_above(&rt, rt.alloc(), *count);
        judge(&rt, is_fault(error, *want), "samples", *count as u64);
    }
}
