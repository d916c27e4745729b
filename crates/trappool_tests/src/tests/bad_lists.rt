use super::{Case, Pieces, TRAPPED_CYAN, USUAL, Wanted, ends, judge};
use job_list::reading::read_list;
use std::alloc::Global;
use std::process::Abort;
use std::sync::Wait;
use std::thread::Threads;
use trap_pool::OpenTakes;

const ONE: &[u8] = b"job r0 Cyan:cyan:a0 Magenta:magenta:b0\n";

// A list, and the number of its first bad line.
const BAD: &[(&[u8], u32)] = &[
    (b"", 0),
    (b"\n", 0),
    (b"job r0 Cyan:cyan:a0 Magenta:magenta:b0", 0),
    (b"job r0 Cyan:cyan:a0 Magenta:magenta:b0\n\n", 1),
    (b"job r0 Cyan:cyan:a0 Magenta:magenta:b0\njob r1", 1),
    (b"job  r0 Cyan:cyan:a0\n", 0),
    (b" job r0 Cyan:cyan:a0\n", 0),
    (b"job r0 Cyan:cyan:a0 \n", 0),
    (b"job r0\n", 0),
    (b"job r0 Cyan:cyan\n", 0),
    (b"job r0 Cyan:cyan:a0:b0\n", 0),
    (b"job r0 Cyan::a0\n", 0),
    (b"job r0 Cy/an:cyan:a0\n", 0),
    (b"job r0 Cyan:cyan:a0 Cyan:magenta:b0\n", 0),
    (b"job r0 Cyan:cyan:a0 Magenta:magenta:a0\n", 0),
    (b"job r0 Cyan:cyan:r0\n", 0),
    (b"job r0 Cyan:cyan:\xFF\n", 0),
    (b"job r0 Cyan:cyan:a0\njob r1 Cyan:cyan:a0\njob\n", 1),
    (b"job r0 Cyan:cyan:a0\njob a0 Cyan:cyan:a1\n", 1),
    (b"job r0 Cyan:cyan:a0\njob r1 Cyan:cyan:r0\n", 1),
    (b"job r0 Cyan:cyan:a0\njob r0 Cyan:cyan:a1\n", 1),
];

// The table stands in a function of its own: a function that names it is proved with all its rows.
fn bad_lists() -> &'static [(&'static [u8], u32)] {
    BAD
}

// Whether a run of this list ends so, and writes nothing of its first line.
fn list_ends<H: Threads + Wait + Abort + Sync>(
    rt: &H,
    alloc: Global,
    list: Pieces<'_>,
    status: u8,
    reported: &str,
) -> bool {
    let case = Case {
        words: "3 list",
        list,
        ..USUAL
    };
    let wanted = Wanted {
        status,
        reported,
        written: &[("a0", None), ("r0", None)],
    };
    ends(rt, alloc, case, &OpenTakes, wanted)
}

fn line_of_bad(rt: &impl Abort, alloc: Global, line: u32) -> String {
    format!(in alloc; "list: BadLine {line}\n").expect(rt, "no memory")
}

fn is_bad_at<H: Threads + Wait + Abort + Sync>(
    rt: &H,
    alloc: Global,
    list: Pieces<'_>,
    line: u32,
) -> bool {
    let reported = line_of_bad(rt, alloc, line);
    list_ends(rt, alloc, list, 3, reported.as_str())
}

#[test]
fn the_first_bad_line_is_reported(rt: HostRuntime) {
    for (place, (list, line)) in bad_lists().iter().enumerate() {
        let is = is_bad_at(&rt, rt.alloc(), &[*list], *line);
        judge(&rt, is, "list", place as u64);
    }
}

// A line of a broken job, and what is printed for it.
fn line_of(rt: &impl Abort, alloc: Global, number: u32) -> String {
    format!(in alloc; "broken r{number} Cyan:cyan:a{number}\n").expect(rt, "no memory")
}

fn line_of_broken(rt: &impl Abort, alloc: Global, number: u32) -> String {
    format!(in alloc; "job {number}: job: NoPageDevice at 0\n").expect(rt, "no memory")
}

fn add(rt: &impl Abort, text: &mut String, line: String) {
    assert!(rt; text.push_str(line.as_str()).is_ok(), "no memory");
}

// `count` lines, each of a broken job.
fn lines_of(rt: &impl Abort, alloc: Global, count: u32) -> String {
    let mut list = String::new(alloc);
    for number in 0..count {
        add(rt, &mut list, line_of(rt, alloc, number));
    }
    list
}

// What is printed for `count` broken jobs.
fn lines_of_broken(rt: &impl Abort, alloc: Global, count: u32) -> String {
    let mut reported = String::new(alloc);
    for number in 0..count {
        add(rt, &mut reported, line_of_broken(rt, alloc, number));
    }
    reported
}

// Whether a list of `count` broken jobs ends so.
fn lines_end<H: Threads + Wait + Abort + Sync>(
    rt: &H,
    alloc: Global,
    count: u32,
    status: u8,
    reported: &str,
) -> bool {
    let list = lines_of(rt, alloc, count);
    list_ends(rt, alloc, &[list.as_bytes()], status, reported)
}

fn are_reported<H: Threads + Wait + Abort + Sync>(rt: &H, alloc: Global, count: u32) -> bool {
    let reported = lines_of_broken(rt, alloc, count);
    lines_end(rt, alloc, count, 9, reported.as_str())
}

#[test]
fn a_list_has_256_lines_at_most(rt: HostRuntime) {
    judge(&rt, are_reported(&rt, rt.alloc(), 1), "lines", 1);
    judge(&rt, are_reported(&rt, rt.alloc(), 256), "lines", 256);
    let is = lines_end(&rt, rt.alloc(), 257, 3, "list: BadLine 256\n");
    judge(&rt, is, "lines", 257);
}

const LONG_LINE: &[u8] = b"broken r1 Cyan:cyan:";

// The length of a name with which a list has `bytes` bytes.
fn name_length(bytes: usize) -> usize {
    let others = ONE.len().saturating_add(LONG_LINE.len()).saturating_add(1);
    bytes.saturating_sub(others)
}

// Whether a list of `bytes` bytes, whose second line has one long name, is bad there.
fn is_too_long<H: Threads + Wait + Abort + Sync>(rt: &H, alloc: Global, bytes: usize) -> bool {
    let name = b"a"
        .repeat(alloc, name_length(bytes))
        .expect(rt, "no memory");
    is_bad_at(rt, alloc, &[ONE, LONG_LINE, name.as_slice(), b"\n"], 1)
}

#[test]
fn a_list_that_is_too_long_is_bad_where_it_becomes_so(rt: HostRuntime) {
    let is = is_too_long(&rt, rt.alloc(), 1_048_577);
    judge(&rt, is, "bytes", 1_048_577);
}

// Words with CR after them, and an output that is read by another line.
const CROSSED: Case<'static> = Case {
    list: &[
        b"job magenta Cyan:cyan:cyan Magenta:magenta:b0\n",
        b"job r1 Cyan:cyan:a1 Magenta:magenta:b1\r\n",
    ],
    ..USUAL
};

const CROSSED_END: Wanted<'static> = Wanted {
    status: 0,
    reported: "job 0: done\njob 1: done\n",
    written: &[
        ("cyan", Some(TRAPPED_CYAN)),
        ("a1", Some(TRAPPED_CYAN)),
        ("b1", None),
    ],
};

#[test]
fn all_reading_comes_before_all_writing(rt: HostRuntime) {
    let is = ends(&rt, rt.alloc(), CROSSED, &OpenTakes, CROSSED_END);
    judge(&rt, is, "lines", 2);
}

// The file that a plate of the first line is written into.
fn first_out(alloc: Global, list: &[u8], plate: u32) -> Option<String> {
    let Ok(lines) = read_list(alloc, list) else {
        return None;
    };
    let line = lines.as_slice().first()?;
    if plate as usize >= line.outs().len() {
        return None;
    }
    String::from_str(alloc, line.out(plate)).ok()
}

fn is_first_out(alloc: Global, plate: u32, wanted: Option<&str>) -> bool {
    let found = first_out(alloc, ONE, plate);
    found.as_ref().map(|name| name.as_str()) == wanted
}

#[test]
fn a_line_gives_the_file_of_each_plate(rt: HostRuntime) {
    for (plate, wanted) in [(0u32, Some("a0")), (1, Some("b0")), (2, None)] {
        judge(
            &rt,
            is_first_out(rt.alloc(), plate, wanted),
            "plate",
            u64::from(plate),
        );
    }
}
