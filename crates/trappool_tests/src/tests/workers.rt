use super::{Case, USUAL, Wanted, ends, judge};
use std::alloc::Global;
use std::process::Abort;
use std::sync::Wait;
use std::thread::Threads;
use trap_pool::OpenTakes;

// The kinds of lines: their job, both plates without the number of their output, and what is printed.
type Kind = (&'static str, &'static str, &'static str, &'static str);

const KINDS: &[Kind] = &[
    ("job", "Cyan:cyan:a", "Magenta:magenta:b", "done"),
    ("unslid", "Cyan:cyan:a", "Magenta:magenta:b", "done"),
    (
        "job",
        "Orange:cyan:a",
        "Magenta:magenta:b",
        "job: NoDetails for plate 0",
    ),
    (
        "broken",
        "Cyan:cyan:a",
        "Magenta:magenta:b",
        "job: NoPageDevice at 0",
    ),
    (
        "job",
        "Cyan:cyan:a",
        "Magenta:short:b",
        "plate 1: Truncated at 12",
    ),
    (
        "job",
        "Cyan:cyan:a",
        "Magenta:small:b",
        "page: SizeDiffers plate 1",
    ),
    (
        "job",
        "Cyan:cyan:a",
        "Magenta:none:b",
        "read fault: plate 1",
    ),
    (
        "none",
        "Cyan:cyan:a",
        "Magenta:magenta:b",
        "read fault: job",
    ),
];

// The line of a list, and the line that is printed for it.
fn list_line(rt: &impl Abort, alloc: Global, number: usize) -> String {
    let (job, cyan, magenta, _) = KINDS[number % 8];
    format!(in alloc; "{job} r{number} {cyan}{number} {magenta}{number}\n").expect(rt, "no memory")
}

fn printed_line(rt: &impl Abort, alloc: Global, number: usize) -> String {
    let (_, _, _, text) = KINDS[number % 8];
    format!(in alloc; "job {number}: {text}\n").expect(rt, "no memory")
}

fn add(rt: &impl Abort, text: &mut String, line: String) {
    assert!(rt; text.push_str(line.as_str()).is_ok(), "no memory");
}

fn list_of(rt: &impl Abort, alloc: Global, count: usize) -> String {
    let mut list = String::new(alloc);
    for number in 0..count {
        add(rt, &mut list, list_line(rt, alloc, number));
    }
    list
}

fn printed_lines(rt: &impl Abort, alloc: Global, count: usize) -> String {
    let mut text = String::new(alloc);
    for number in 0..count {
        add(rt, &mut text, printed_line(rt, alloc, number));
    }
    text
}

// Whether a run of forty jobs by these words tells this.
fn forty_tell<H: Threads + Wait + Abort + Sync>(
    rt: &H,
    alloc: Global,
    words: &str,
    reported: &str,
) -> bool {
    let list = list_of(rt, alloc, 40);
    let case = Case {
        words,
        list: &[list.as_bytes()],
        ..USUAL
    };
    let wanted = Wanted {
        status: 9,
        reported,
        written: &[("a2", None), ("r38", None)],
    };
    ends(rt, alloc, case, &OpenTakes, wanted)
}

fn forty_end<H: Threads + Wait + Abort + Sync>(rt: &H, alloc: Global, words: &str) -> bool {
    let reported = printed_lines(rt, alloc, 40);
    forty_tell(rt, alloc, words, reported.as_str())
}

fn forty_by<H: Threads + Wait + Abort + Sync>(rt: &H, alloc: Global, workers: u32) -> bool {
    let words = format!(in alloc; "{workers} list").expect(rt, "no memory");
    forty_end(rt, alloc, words.as_str())
}

#[test]
fn forty_jobs_by_any_number_of_workers(rt: HostRuntime) {
    for workers in 1..65u32 {
        let is = forty_by(&rt, rt.alloc(), workers);
        judge(&rt, is, "workers", u64::from(workers));
    }
}
