use plain_words::parts::{PlateWord, plate_parts};
use std::alloc::{AllocError, Global};
use std::test::Fail;
use trap_cli::command::{Command, PageArgs, read_words};

// Words that are no command, with single spaces between them: two spaces stand round an empty word.
const REFUSED: &[&str] = &[
    "",
    "page",
    "sample",
    "pages J R C:a:b",
    "--workers 2 page J R C:a:b",
    "page J",
    "page J R",
    "page J R ",
    "page --help",
    "page -h J R C:a:b",
    "page J R C:a:b --help",
    "page --version J R C:a:b",
    "page --workers 0 J R C:a:b",
    "page --workers 65 J R C:a:b",
    "page --workers +8 J R C:a:b",
    "page --workers -8 J R C:a:b",
    "page --workers 8x J R C:a:b",
    "page --workers 00000000008 J R C:a:b",
    "page --workers 4294967304 J R C:a:b",
    "page --workers= J R C:a:b",
    "page --workers  J R C:a:b",
    "page --workers --band 8 J R C:a:b",
    "page --workers -- J R C:a:b",
    "page J R C:a:b --workers",
    "page --workers 2 --workers 2 J R C:a:b",
    "page --workers=2 --workers 2 J R C:a:b",
    "page --workers 2 J R C:a:b --workers=2",
    "page --band 0 J R C:a:b",
    "page --band 4097 J R C:a:b",
    "page --band 8 --band=8 J R C:a:b",
    "page --work 2 J R C:a:b",
    "page -w 2 J R C:a:b",
    "page -workers 2 J R C:a:b",
    "page --Band 2 J R C:a:b",
    "page --zones 2 J R C:a:b",
    "page -- --workers 2 J R C:a:b",
    "page J R C:a:b -- --band 8",
    "page J R C:a:b C:c:d",
    "page J R C:a:b M:c:b",
    "page J R C:a:R",
    "page J R C:a:b M:c:R",
    "page J R C:a",
    "page J R C:a:b:c",
    "page J R C:a:b:",
    "page J R C::b",
    "page J R :a:b",
    "page J R C:a:",
    "page J R ::",
    "page J R C:a:b ",
    "page J R C/:a:b",
    "page J R (C:a:b",
    "page J R C%:a:b",
    "page J R C\u{7f}:a:b",
    "page J R \u{e9}:a:b",
    "page J R Cyan:a:b Magenta:c:d Yellow",
    "page J R nnnnnnnnnnnnnnnnnnnnnnnnnnnnnnnnnnnnnnnnnnnnnnnnnnnnnnnnnnnnnnnnn:a:b",
    "page J R A:a:1 B:a:2 C:a:3 D:a:4 E:a:5 F:a:6 G:a:7 H:a:8 I:a:9 J:a:10 K:a:11 L:a:12 M:a:13 N:a:14 O:a:15 P:a:16 Q:a:17",
    "sample 1 2 3",
    "sample 1 2 3 4 5",
    "sample 1 2 3 ",
    "sample 4294967296 2 3 4",
    "sample 99999999999 2 3 4",
    "sample 1 0 3 4",
    "sample 1 2 0 4",
    "sample 1 16385 3 4",
    "sample 1 2 16385 4",
    "sample 1 2 3 0",
    "sample 1 2 3 65",
    "sample +1 2 3 4",
    "sample -1 2 3 4",
    "sample --workers 4 1 2 3",
    "sample 1 2 3 --",
];

// The words of a page, and what they mean.
#[derive(Clone, Copy)]
struct PageCase {
    words: &'static str,
    workers: u32,
    band: u32,
    job: &'static str,
    report: &'static str,
    plates: &'static [PlateWord<'static>],
}

const CYAN: PlateWord<'static> = PlateWord {
    name: "C",
    input: "a",
    output: "b",
};

const MAGENTA: PlateWord<'static> = PlateWord {
    name: "M",
    input: "c",
    output: "d",
};

const USUAL: PageCase = PageCase {
    words: "page J R C:a:b",
    workers: 4,
    band: 64,
    job: "J",
    report: "R",
    plates: &[CYAN],
};

const PAGES: &[PageCase] = &[
    USUAL,
    PageCase {
        words: "page --workers 8 J R C:a:b",
        workers: 8,
        ..USUAL
    },
    PageCase {
        words: "page --workers=8 J R C:a:b",
        workers: 8,
        ..USUAL
    },
    PageCase {
        words: "page --band 8 J R C:a:b",
        band: 8,
        ..USUAL
    },
    PageCase {
        words: "page --band=8 --workers 64 J R C:a:b",
        workers: 64,
        band: 8,
        ..USUAL
    },
    PageCase {
        words: "page --workers 0000000001 --band 4096 J R C:a:b",
        workers: 1,
        band: 4096,
        ..USUAL
    },
    PageCase {
        words: "page J --workers 2 R --band=1 C:a:b",
        workers: 2,
        band: 1,
        ..USUAL
    },
    PageCase {
        words: "page J R C:a:b --workers 2",
        workers: 2,
        ..USUAL
    },
    PageCase {
        words: "page J R C:a:b --band=9 M:c:d --workers 3",
        workers: 3,
        band: 9,
        plates: &[CYAN, MAGENTA],
        ..USUAL
    },
    PageCase {
        words: "page -- J R C:a:b",
        ..USUAL
    },
    PageCase {
        words: "page --workers 2 J -- R C:a:b",
        workers: 2,
        ..USUAL
    },
    PageCase {
        words: "page J R C:a:b -- M:c:d",
        plates: &[CYAN, MAGENTA],
        ..USUAL
    },
    PageCase {
        words: "page -- --help -r C:a:b",
        job: "--help",
        report: "-r",
        ..USUAL
    },
    PageCase {
        words: "page - help C:a:b",
        job: "-",
        report: "help",
        ..USUAL
    },
    PageCase {
        words: "page  J C:a:b",
        job: "",
        report: "J",
        ..USUAL
    },
    PageCase {
        words: "page page page C:a:b",
        job: "page",
        report: "page",
        ..USUAL
    },
    PageCase {
        words: "page J R !:b:a ~:a:b",
        plates: &[
            PlateWord {
                name: "!",
                input: "b",
                output: "a",
            },
            PlateWord {
                name: "~",
                input: "a",
                output: "b",
            },
        ],
        ..USUAL
    },
    PageCase {
        words: "page J R nnnnnnnnnnnnnnnnnnnnnnnnnnnnnnnnnnnnnnnnnnnnnnnnnnnnnnnnnnnnnnnn:J:J",
        plates: &[PlateWord {
            name: "nnnnnnnnnnnnnnnnnnnnnnnnnnnnnnnnnnnnnnnnnnnnnnnnnnnnnnnnnnnnnnnn",
            input: "J",
            output: "J",
        }],
        ..USUAL
    },
];

const SIXTEEN: &str =
    "page J R A:a:1 B:a:2 C:a:3 D:a:4 E:a:5 F:a:6 G:a:7 H:a:8 I:a:9 J:a:10 K:a:11 L:a:12 M:a:13 N:a:14 O:a:15 P:a:16";

// The words of a sample page, and its number, sides and workers.
const SAMPLES: &[(&str, [u32; 4])] = &[
    ("sample 0 16 8 2", [0, 16, 8, 2]),
    (
        "sample 4294967295 16384 16384 64",
        [4294967295, 16384, 16384, 64],
    ),
    ("sample 0000000007 01 001 0001", [7, 1, 1, 1]),
];

fn words_of(alloc: Global, line: &str) -> Result<Vec<String>, AllocError> {
    let mut words = Vec::new(alloc);
    for word in line.split(' ') {
        words.push(String::from_str(alloc, word)?)?;
    }
    Ok(words)
}

fn is_refused(alloc: Global, line: &str) -> Result<bool, AllocError> {
    let words = words_of(alloc, line)?;
    match read_words(alloc, words.as_slice()) {
        Ok(None) => Ok(true),
        _ => Ok(false),
    }
}

fn is_page(alloc: Global, case: &PageCase) -> Result<bool, AllocError> {
    let words = words_of(alloc, case.words)?;
    match read_words(alloc, words.as_slice()) {
        Ok(Some(Command::Page(page))) => Ok(has_values(&page, case)),
        _ => Ok(false),
    }
}

fn has_values(page: &PageArgs<'_>, case: &PageCase) -> bool {
    page.workers == case.workers
        && page.band == case.band
        && page.job == case.job
        && page.report == case.report
        && have_parts(page.plates.as_slice(), case.plates)
}

fn have_parts(words: &[&str], plates: &[PlateWord<'_>]) -> bool {
    for (word, plate) in words.iter().zip(plates) {
        if plate_parts(word) != *plate {
            return false;
        }
    }
    words.len() == plates.len()
}

fn plate_count(alloc: Global, line: &str) -> Result<usize, AllocError> {
    let words = words_of(alloc, line)?;
    match read_words(alloc, words.as_slice()) {
        Ok(Some(Command::Page(page))) => Ok(page.plates.len()),
        _ => Ok(0),
    }
}

fn is_sample(alloc: Global, line: &str, wanted: [u32; 4]) -> Result<bool, AllocError> {
    let words = words_of(alloc, line)?;
    match read_words(alloc, words.as_slice()) {
        Ok(Some(Command::Sample(found))) => {
            Ok([found.number, found.width, found.height, found.workers] == wanted)
        }
        _ => Ok(false),
    }
}

#[test]
fn refuses_other_words(rt: HostRuntime) -> Result<(), Fail> {
    let none = Vec::new(rt.alloc());
    assert!(rt; matches!(read_words(rt.alloc(), none.as_slice()), Ok(None)));
    for line in REFUSED {
        assert!(rt; is_refused(rt.alloc(), line)?, "{line}");
    }
    Ok(())
}

#[test]
fn reads_pages(rt: HostRuntime) -> Result<(), Fail> {
    for case in PAGES {
        assert!(rt; is_page(rt.alloc(), case)?, "{}", case.words);
    }
    assert_eq!(rt; plate_count(rt.alloc(), SIXTEEN)?, 16);
    Ok(())
}

#[test]
fn reads_samples(rt: HostRuntime) -> Result<(), Fail> {
    for (line, wanted) in SAMPLES {
        assert!(rt; is_sample(rt.alloc(), line, *wanted)?, "{line}");
    }
    Ok(())
}
