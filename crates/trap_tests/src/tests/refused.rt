use super::{
    CYAN, Case, END, INKS, Look, MAGENTA, ONE_PLATE, SET, TWO_PLATES, USUAL, WIDE, ends, judge,
};
use std::alloc::Global;
use std::process::Abort;
use std::thread::Threads;

// A page that is refused: its words, job and plates, the file that fails and where, and the status and the line printed.
#[derive(Clone, Copy)]
struct Refused {
    words: &'static str,
    job: &'static [&'static [u8]],
    plates: &'static [&'static [u8]],
    failing: Option<(usize, u64)>,
    status: u8,
    line: &'static str,
}

const PAGES: &[Refused] = &[
    Refused {
        words: TWO_PLATES,
        job: &[INKS, WIDE],
        plates: &[b"P5\n6 1\n255\n\0\0\0\xFF\xFF", MAGENTA],
        failing: None,
        status: 4,
        line: "plate 0: Truncated at 16\n",
    },
    Refused {
        words: TWO_PLATES,
        job: &[INKS, WIDE],
        plates: &[b"P5\n6 1\n255\n\0\0\0\xFF\xFF\xFF\0", MAGENTA],
        failing: None,
        status: 4,
        line: "plate 0: TrailingBytes at 17\n",
    },
    Refused {
        words: ONE_PLATE,
        job: &[INKS, WIDE],
        plates: &[b"P5 1 1 100\ne"],
        failing: None,
        status: 4,
        line: "plate 0: SampleAboveMaxval at 11\n",
    },
    Refused {
        words: ONE_PLATE,
        job: &[INKS, WIDE],
        plates: &[b"P5 1 1 256\n\0"],
        failing: None,
        status: 4,
        line: "plate 0: Truncated at 12\n",
    },
    Refused {
        words: ONE_PLATE,
        job: &[INKS, WIDE],
        plates: &[b"P5 1 1 65536\n"],
        failing: None,
        status: 4,
        line: "plate 0: MaxvalRange at 7\n",
    },
    Refused {
        words: ONE_PLATE,
        job: &[INKS, WIDE],
        plates: &[b"P5 1 1 256\n\x01\x01"],
        failing: None,
        status: 4,
        line: "plate 0: SampleAboveMaxval at 11\n",
    },
    Refused {
        words: TWO_PLATES,
        job: &[INKS, WIDE],
        plates: &[CYAN, b"P5\n5 1\n255\n\xFF\xFF\xFF\0\0"],
        failing: None,
        status: 4,
        line: "page: SizeDiffers plate 1\n",
    },
    Refused {
        words: TWO_PLATES,
        job: &[INKS, SET, b"/TrapWidth 100 /BlackWidth 2", END],
        plates: &[CYAN, MAGENTA],
        failing: None,
        status: 4,
        line: "page: ReachTooWide zone 0\n",
    },
    Refused {
        words: TWO_PLATES,
        job: &[b"<< /TrappingDetails << /Type 1000 >> >> setpagedevice showpage"],
        plates: &[CYAN, MAGENTA],
        failing: None,
        status: 3,
        line: "job: WrongType at 29\n",
    },
    Refused {
        words: TWO_PLATES,
        job: &[b"<< /TrapWidth 1e5 >> settrapparams showpage"],
        plates: &[CYAN, MAGENTA],
        failing: None,
        status: 3,
        line: "job: BadToken at 14\n",
    },
    Refused {
        words: TWO_PLATES,
        job: &[b"<< /TrapWidth 0 >> settrapparams showpage"],
        plates: &[CYAN, MAGENTA],
        failing: None,
        status: 3,
        line: "job: OutOfRange TrapWidth at 14\n",
    },
    Refused {
        words: TWO_PLATES,
        job: &[b"<< /TrapWidth 1"],
        plates: &[CYAN, MAGENTA],
        failing: None,
        status: 3,
        line: "job: Unclosed at 0\n",
    },
    Refused {
        words: TWO_PLATES,
        job: &[b"10 10 lineto showpage"],
        plates: &[CYAN, MAGENTA],
        failing: None,
        status: 3,
        line: "job: NoCurrentPoint at 6\n",
    },
    Refused {
        words: TWO_PLATES,
        job: &[b"5 showpage"],
        plates: &[CYAN, MAGENTA],
        failing: None,
        status: 3,
        line: "job: WrongOperands at 2\n",
    },
    Refused {
        words: TWO_PLATES,
        job: &[b"showpage"],
        plates: &[CYAN, MAGENTA],
        failing: None,
        status: 3,
        line: "job: NoPageDevice at 0\n",
    },
    Refused {
        words: TWO_PLATES,
        job: &[b""],
        plates: &[CYAN, MAGENTA],
        failing: None,
        status: 3,
        line: "job: NoShowpage at 0\n",
    },
    Refused {
        words: TWO_PLATES,
        job: &[b"<< /Enabled false >> settrapparams"],
        plates: &[CYAN, MAGENTA],
        failing: None,
        status: 3,
        line: "job: NoShowpage at 34\n",
    },
    Refused {
        words: TWO_PLATES,
        job: &[b"<< /Enabled false >> settrapparams showpage 1"],
        plates: &[CYAN, MAGENTA],
        failing: None,
        status: 3,
        line: "job: AfterShowpage at 44\n",
    },
    Refused {
        words: "page job report Orange:in0:out0 Magenta:in1:out1",
        job: &[INKS, WIDE],
        plates: &[CYAN, MAGENTA],
        failing: None,
        status: 3,
        line: "job: NoDetails for plate 0\n",
    },
    Refused {
        words: TWO_PLATES,
        job: &[INKS, WIDE],
        plates: &[CYAN, MAGENTA],
        failing: Some((2, 5)),
        status: 5,
        line: "read fault: plate 1\n",
    },
    Refused {
        words: TWO_PLATES,
        job: &[INKS, WIDE],
        plates: &[CYAN],
        failing: None,
        status: 5,
        line: "read fault: plate 1\n",
    },
    Refused {
        words: TWO_PLATES,
        job: &[b"<< /ColorantZoneDetails 5 >> settrapparams showpage"],
        plates: &[CYAN, MAGENTA],
        failing: None,
        status: 3,
        line: "job: NotDictionary at 24\n",
    },
    Refused {
        words: TWO_PLATES,
        job: &[b"<< /ColorantZoneDetails << /Cyan << /StepLimit 2 >> >> >> settrapparams showpage"],
        plates: &[CYAN, MAGENTA],
        failing: None,
        status: 3,
        line: "job: OutOfRange StepLimit at 47\n",
    },
    Refused {
        words: TWO_PLATES,
        job: &[b"[[[[[[[[[[[[[[[[]]]]]]]]]]]]]]]] showpage"],
        plates: &[CYAN, MAGENTA],
        failing: None,
        status: 3,
        line: "job: WrongOperands at 33\n",
    },
    Refused {
        words: TWO_PLATES,
        job: &[b"[[[[[[[[[[[[[[[[["],
        plates: &[CYAN, MAGENTA],
        failing: None,
        status: 3,
        line: "job: TooDeep at 16\n",
    },
];

// The table stands in a function of its own: a function that names it is proved with all its rows.
fn pages() -> &'static [Refused] {
    PAGES
}

fn is_refused(rt: &(impl Abort + Threads + Sync), alloc: Global, page: &Refused) -> bool {
    let case = Case {
        words: page.words,
        job: page.job,
        plates: page.plates,
        failing: page.failing,
        ..USUAL
    };
    ends(rt, alloc, case, page.status, Look::Refused(page.line))
}

#[test]
fn refused_pages_tell_their_line(rt: HostRuntime) {
    for page in pages() {
        let is = is_refused(&rt, rt.alloc(), page);
        judge(&rt, is, page.line, u64::from(page.status));
    }
}
