mod bad_lists;
mod failing;
mod queue;
mod worked;
mod workers;

use lists::list::List;
use outside::mem_file::FileList;
use outside::mem_rack::MemRack;
use outside::mem_tray::MemTray;
use std::alloc::Global;
use std::process::Abort;
use std::sync::Wait;
use std::thread::Threads;
use test_files::{
    CYAN, INKS, MAGENTA, TRAPPED_CYAN, TRAPPED_MAGENTA, TRAPPED_REPORT, UNSLID_CYAN, UNSLID_REPORT,
    WIDE, put_file, rack_of, tray_of, words_of,
};
use trap_pool::TakeGate;
use trappool_cli::top::trappool_main;

// The bytes of a file, one piece after the other.
type Pieces<'a> = &'a [&'a [u8]];

// The files that are read beside the list.
const READ: &[(&str, Pieces<'static>)] = &[
    ("job", &[INKS, WIDE]),
    (
        "unslid",
        &[
            INKS,
            b"<< /TrapWidth 2 /SlidingTrapLimit 1 >> settrapparams showpage",
        ],
    ),
    ("broken", &[b"showpage"]),
    ("cyan", &[CYAN]),
    ("magenta", &[MAGENTA]),
    ("short", &[b"P5\n6 1\n255\n\0"]),
    ("small", &[b"P5\n1 1\n255\n\0"]),
];

// A run: its words, its list, and the calls of the tray and of the rack that fail.
#[derive(Clone, Copy)]
struct Case<'a> {
    words: &'a str,
    list: Pieces<'a>,
    tray_fails: Option<u64>,
    rack_fails: Option<u64>,
}

// Two lines, of which the second job spreads its trap on the darker side alone.
const USUAL: Case<'static> = Case {
    words: "2 list",
    list: &[
        b"job r0 Cyan:cyan:a0 Magenta:magenta:b0\n",
        b"unslid r1 Cyan:cyan:a1 Magenta:magenta:b1\n",
    ],
    tray_fails: None,
    rack_fails: None,
};

// How a run ends: its status, what is printed, and some files with what stands in them afterwards.
#[derive(Clone, Copy)]
struct Wanted<'a> {
    status: u8,
    reported: &'a str,
    written: &'a [(&'a str, Option<&'a [u8]>)],
}

// Stops the test where an answer is wrong, and names the row that it is of.
fn judge(rt: &impl Abort, is_right: bool, row: &str, number: u64) {
    assert!(rt; is_right, "{row}, {number}");
}

fn put(rt: &impl Abort, alloc: Global, files: &mut FileList, name: &str, pieces: Pieces<'_>) {
    assert!(rt; put_file(alloc, files, name, pieces).is_ok(), "no memory");
}

// The list, and all files that jobs are read from.
fn files_of(rt: &impl Abort, alloc: Global, list: Pieces<'_>) -> FileList {
    let mut files = List::new(alloc);
    put(rt, alloc, &mut files, "list", list);
    for (name, pieces) in READ {
        put(rt, alloc, &mut files, name, pieces);
    }
    files
}

// Whether the run by this tray and this rack ends so.
fn end_of_call<H: Threads + Wait + Sync, G: TakeGate + Sync>(
    rt: &H,
    alloc: Global,
    words: &[String],
    tray: &mut MemTray,
    rack: &mut MemRack,
    gate: &G,
    wanted: Wanted<'_>,
) -> bool {
    let status = trappool_main(rt, alloc, words, tray, rack, gate);
    status == wanted.status && is_left(rack, wanted)
}

fn end_on_rack<H: Threads + Wait + Abort + Sync, G: TakeGate + Sync>(
    rt: &H,
    alloc: Global,
    words: &[String],
    tray: &mut MemTray,
    case: Case<'_>,
    gate: &G,
    wanted: Wanted<'_>,
) -> bool {
    let mut rack = rack_of(alloc, 4096, 1_000_000, case.rack_fails).expect(rt, "no memory");
    end_of_call(rt, alloc, words, tray, &mut rack, gate, wanted)
}

fn end_on_files<H: Threads + Wait + Abort + Sync, G: TakeGate + Sync>(
    rt: &H,
    alloc: Global,
    words: &[String],
    case: Case<'_>,
    gate: &G,
    wanted: Wanted<'_>,
) -> bool {
    let files = files_of(rt, alloc, case.list);
    let mut tray = tray_of(alloc, files, 4096, case.tray_fails).expect(rt, "no tray");
    end_on_rack(rt, alloc, words, &mut tray, case, gate, wanted)
}

// Whether the run ends so.
fn ends<H: Threads + Wait + Abort + Sync, G: TakeGate + Sync>(
    rt: &H,
    alloc: Global,
    case: Case<'_>,
    gate: &G,
    wanted: Wanted<'_>,
) -> bool {
    let words = words_of(alloc, case.words).expect(rt, "no memory");
    end_on_files(rt, alloc, &words, case, gate, wanted)
}

fn is_left(rack: &MemRack, wanted: Wanted<'_>) -> bool {
    rack.reported() == wanted.reported.as_bytes() && has_written(rack, wanted.written)
}

fn has_written(rack: &MemRack, written: &[(&str, Option<&[u8]>)]) -> bool {
    for (name, bytes) in written {
        if rack.file(*name) != *bytes {
            return false;
        }
    }
    true
}
