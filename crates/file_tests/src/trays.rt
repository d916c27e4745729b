use crate::fixtures::{Way, by, bytes_of, file_of, judge, put, tray_of};
use lists::list::List;
use outside::distinct_names::have_distinct_names;
use outside::endless_tray::EndlessTray;
use outside::mem_tray::MemTray;
use outside::reading::{ReadError, read_file};
use std::alloc::Global;
use std::process::Abort;

// Whether a read of that file by such a tray gives these bytes, or, where none are given, is a read fault.
fn gives(alloc: Global, tray: &mut MemTray, name: &str, most: u32, want: Option<&str>) -> bool {
    match read_file(alloc, tray, name, most) {
        Ok(bytes) => match want {
            Some(text) => bytes.as_slice() == text.as_bytes(),
            None => false,
        },
        Err(error) => want.is_none() && matches!(error, ReadError::ReadFault),
    }
}

// The same of a tray in which `one` holds a job.
fn reads(
    rt: &impl Abort,
    alloc: Global,
    name: &str,
    most: u32,
    way: Way,
    want: Option<&str>,
) -> bool {
    let mut tray = tray_of(rt, alloc, b"showpage", way);
    gives(alloc, &mut tray, name, most, want)
}

const FRONTS: &[(u32, &str)] = &[
    (0, ""),
    (1, "s"),
    (7, "showpag"),
    (8, "showpage"),
    (9, "showpage"),
];

fn judge_prefixes(rt: &impl Abort, alloc: Global, grain: usize) {
    for (most, want) in FRONTS {
        let is_read = reads(rt, alloc, "one", *most, by(grain), Some(want));
        judge(rt, is_read, want, grain as u64);
    }
}

#[test]
fn a_file_is_read_by_any_grain(rt: HostRuntime) {
    judge_prefixes(&rt, rt.alloc(), 1);
    judge_prefixes(&rt, rt.alloc(), 2);
    judge_prefixes(&rt, rt.alloc(), 3);
    judge_prefixes(&rt, rt.alloc(), 4096);
}

fn job(is_read: bool) -> Option<&'static str> {
    if is_read { Some("showpage") } else { None }
}

fn judge_call(rt: &impl Abort, alloc: Global, call: u64) {
    let way = Way {
        call: Some(call),
        ..by(3)
    };
    judge(
        rt,
        reads(rt, alloc, "one", 100, way, job(call == 5)),
        "call",
        call,
    );
}

#[test]
fn each_read_fails_in_turn(rt: HostRuntime) {
    // By pieces of 3 there are `begin`, reads at 0, 3 and 6, and one that finds the end.
    for call in 0..6 {
        judge_call(&rt, rt.alloc(), call);
    }
}

fn judge_place(rt: &impl Abort, alloc: Global, place: u64) {
    let way = Way {
        fails_at: Some(place),
        ..by(3)
    };
    judge(
        rt,
        reads(rt, alloc, "one", 100, way, job(place == 9)),
        "at",
        place,
    );
    // What is wanted lies before the place.
    judge(
        rt,
        reads(rt, alloc, "one", 8, way, job(place > 7)),
        "before",
        place,
    );
}

#[test]
fn each_place_fails_in_turn(rt: HostRuntime) {
    for place in 0..10 {
        judge_place(&rt, rt.alloc(), place);
    }
}

#[test]
fn a_missing_file_is_a_fault_and_an_empty_one_is_none(rt: HostRuntime) {
    assert!(rt; reads(&rt, rt.alloc(), "plate", 9, by(10), None));
    assert!(rt; reads(&rt, rt.alloc(), "empty", 9, by(10), Some("")));
}

// Whether files of these names have distinct names.
fn are_distinct(rt: &impl Abort, alloc: Global, names: &[&str]) -> bool {
    let mut files = List::new(alloc);
    for name in names {
        put(
            rt,
            &mut files,
            file_of(rt, alloc, name.as_bytes(), b"", None),
        );
    }
    have_distinct_names(files.as_slice())
}

#[test]
fn names_are_compared_whole(rt: HostRuntime) {
    assert!(rt; are_distinct(&rt, rt.alloc(), &[]));
    assert!(rt; are_distinct(&rt, rt.alloc(), &["a", "aa", "", "A"]));
    assert!(rt; !are_distinct(&rt, rt.alloc(), &["a", "b", "a"]));
}

fn is_head_and_spaces(bytes: &[u8], most: u32) -> bool {
    let spaces = bytes.iter().filter(|byte| **byte == b' ').count();
    bytes.len() == most as usize && bytes.starts_with(b"P5") && spaces + 2 == bytes.len()
}

// Whether the first bytes of an endless file are `P5` and spaces.
fn is_read_on(alloc: Global, tray: &mut EndlessTray, most: u32) -> bool {
    match read_file(alloc, tray, "any", most) {
        Ok(bytes) => is_head_and_spaces(bytes.as_slice(), most),
        Err(_) => false,
    }
}

fn is_endless(rt: &impl Abort, alloc: Global, most: u32) -> bool {
    let mut tray = EndlessTray::new(bytes_of(rt, alloc, b"P5"), b' ');
    is_read_on(alloc, &mut tray, most)
}

#[test]
fn an_endless_file_gives_its_head_and_then_its_tail(rt: HostRuntime) {
    // The last row is one byte more than a job may have.
    for most in &[2, 5, 1_048_577] {
        judge(
            &rt,
            is_endless(&rt, rt.alloc(), *most),
            "bytes",
            u64::from(*most),
        );
    }
}
