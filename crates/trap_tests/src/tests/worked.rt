use super::{
    CYAN, Case, DISABLED, END, INKS, Look, MAGENTA, ONE_PLATE, SET, TALL_CYAN, TALL_MAGENTA,
    TRAPPED_CYAN, TRAPPED_MAGENTA, TRAPPED_REPORT, TWO_PLATES, UNSLID_CYAN, UNSLID_REPORT,
    UNTRAPPED_REPORT, USUAL, WIDE, ends, judge,
};
use std::alloc::Global;
use std::process::Abort;
use std::thread::Threads;

// A page that is trapped: its words, job and plates, and the plates and the report that are written.
#[derive(Clone, Copy)]
struct Worked {
    words: &'static str,
    job: &'static [&'static [u8]],
    plates: &'static [&'static [u8]],
    written: &'static [&'static [u8]],
    report: &'static [u8],
}

// plates of two bytes a sample
const DEEP_CYAN: &[u8] = b"P5\n6 1\n65535\n\0\0\0\0\0\0\xFF\xFF\xFF\xFF\xFF\xFF";

const DEEP_MAGENTA: &[u8] = b"P5\n6 1\n65535\n\xFF\xFF\xFF\xFF\xFF\xFF\0\0\0\0\0\0";

// The beginning of a job with a Foil of the type that stands between these two.
const FOIL: &[u8] =
    b"<< /HWResolution [72 72] /TrappingDetails << /Type 1001 /ColorantDetails << /Cyan << /NeutralDensity 0.61 >> /Magenta << /NeutralDensity 0.76 >> /Foil << /NeutralDensity 1 /ColorantType ";

const FOIL_END: &[u8] = b" >> >> >> >> setpagedevice ";

const PAGES: &[Worked] = &[
    Worked {
        words: TWO_PLATES,
        job: &[INKS, WIDE],
        plates: &[CYAN, MAGENTA],
        written: &[TRAPPED_CYAN, TRAPPED_MAGENTA],
        report: TRAPPED_REPORT,
    },
    Worked {
        words: TWO_PLATES,
        job: &[INKS, SET, b"/TrapWidth 2 /SlidingTrapLimit 1", END],
        plates: &[CYAN, MAGENTA],
        written: &[UNSLID_CYAN, MAGENTA],
        report: UNSLID_REPORT,
    },
    Worked {
        words: TWO_PLATES,
        job: &[
            INKS,
            SET,
            b"/TrapWidth 2 /SlidingTrapLimit 1 /TrapColorScaling 0",
            END,
        ],
        plates: &[CYAN, MAGENTA],
        written: &[
            b"P5\n6 1\n255\n\0\0\0rr\xFF",
            b"P5\n6 1\n255\n\xFF\xFF\xFFrr\0",
        ],
        report: b"trap report\npage 6 1 255 plates 2\nzone 0 samples 6 changed 2\nedges 1\nplate Cyan changed 2\nplate Magenta changed 2\nend\n",
    },
    Worked {
        words: TWO_PLATES,
        job: &[INKS, SET, b"/TrapWidth 0.25", END],
        plates: &[CYAN, MAGENTA],
        written: &[CYAN, MAGENTA],
        report: b"trap report\npage 6 1 255 plates 2\nzone 0 samples 6 changed 0\nedges 1\nplate Cyan changed 0\nplate Magenta changed 0\nend\n",
    },
    Worked {
        words: ONE_PLATE,
        job: &[INKS, WIDE],
        plates: &[b"P5\n1 1\n255\n\0"],
        written: &[b"P5\n1 1\n255\n\0"],
        report: b"trap report\npage 1 1 255 plates 1\nzone 0 samples 1 changed 0\nedges 0\nplate Cyan changed 0\nend\n",
    },
    Worked {
        words: "page job report Cyan:in0:out0 Black:in1:out1 Yellow:in2:out2",
        job: &[INKS, SET, b"/TrapWidth 1", END],
        plates: &[
            b"P5\n3 1\n255\n\0\xFF\xFF",
            b"P5\n3 1\n255\n\xFF\0\xFF",
            b"P5\n3 1\n255\n\xFF\xFF\0",
        ],
        written: &[
            b"P5\n3 1\n255\n\0\0\xFF",
            b"P5\n3 1\n255\n\xFF\0\xFF",
            b"P5\n3 1\n255\n\xFF\xFF\0",
        ],
        report: b"trap report\npage 3 1 255 plates 3\nzone 0 samples 3 changed 1\nedges 2\nplate Cyan changed 1\nplate Black changed 0\nplate Yellow changed 0\nend\n",
    },
    Worked {
        words: "page job report Cyan:in0:out0 Black:in1:out1 Yellow:in2:out2",
        job: &[INKS, SET, b"/TrapWidth 1", END],
        plates: &[
            b"P5\n1 3\n255\n\0\xFF\xFF",
            b"P5\n1 3\n255\n\xFF\0\xFF",
            b"P5\n1 3\n255\n\xFF\xFF\0",
        ],
        written: &[
            b"P5\n1 3\n255\n\0\0\xFF",
            b"P5\n1 3\n255\n\xFF\0\xFF",
            b"P5\n1 3\n255\n\xFF\xFF\0",
        ],
        report: b"trap report\npage 1 3 255 plates 3\nzone 0 samples 3 changed 1\nedges 2\nplate Cyan changed 1\nplate Black changed 0\nplate Yellow changed 0\nend\n",
    },
    Worked {
        words: TWO_PLATES,
        job: &[INKS, WIDE],
        plates: &[b"P5\n2 1\n100\nKd", b"P5\n2 1\n100\ndK"],
        written: &[b"P5\n2 1\n100\nKK", b"P5\n2 1\n100\nKK"],
        report: b"trap report\npage 2 1 100 plates 2\nzone 0 samples 2 changed 2\nedges 1\nplate Cyan changed 1\nplate Magenta changed 1\nend\n",
    },
    Worked {
        words: TWO_PLATES,
        job: &[INKS, WIDE],
        plates: &[b"P5\n2 1\n100\nLd", b"P5\n2 1\n100\ndK"],
        written: &[b"P5\n2 1\n100\nLd", b"P5\n2 1\n100\ndK"],
        report: b"trap report\npage 2 1 100 plates 2\nzone 0 samples 2 changed 0\nedges 0\nplate Cyan changed 0\nplate Magenta changed 0\nend\n",
    },
    Worked {
        words: TWO_PLATES,
        job: &[INKS, SET, b"/StepLimit 0 /TrapWidth 2", END],
        plates: &[
            b"P5\n4 4\n255\n\x80\x80\x80\x80\x80\x80\x80\x80\x80\x80\x80\x80\x80\x80\x80\x80",
            b"P5\n4 4\n255\n@@@@@@@@@@@@@@@@",
        ],
        written: &[
            b"P5\n4 4\n255\n\x80\x80\x80\x80\x80\x80\x80\x80\x80\x80\x80\x80\x80\x80\x80\x80",
            b"P5\n4 4\n255\n@@@@@@@@@@@@@@@@",
        ],
        report: b"trap report\npage 4 4 255 plates 2\nzone 0 samples 16 changed 0\nedges 0\nplate Cyan changed 0\nplate Magenta changed 0\nend\n",
    },
    Worked {
        words: "page job report Cyan:in0:out0 Magenta:in1:out1 Foil:in2:out2",
        job: &[FOIL, b"/OpaqueIgnore", FOIL_END, WIDE],
        plates: &[CYAN, MAGENTA, b"P5\n6 1\n255\n\xFF\xFF\xFF\0\xFF\xFF"],
        written: &[CYAN, MAGENTA, b"P5\n6 1\n255\n\xFF\xFF\xFF\0\xFF\xFF"],
        report: b"trap report\npage 6 1 255 plates 3\nzone 0 samples 6 changed 0\nedges 0\nplate Cyan changed 0\nplate Magenta changed 0\nplate Foil changed 0\nend\n",
    },
    Worked {
        words: "page job report Cyan:in0:out0 Magenta:in1:out1 Foil:in2:out2",
        job: &[
            FOIL,
            b"/Opaque",
            FOIL_END,
            SET,
            b"/TrapWidth 2 /SlidingTrapLimit 0",
            END,
        ],
        plates: &[CYAN, MAGENTA, b"P5\n6 1\n255\n\xFF\xFF\xFF\0\xFF\xFF"],
        written: &[
            TRAPPED_CYAN,
            TRAPPED_MAGENTA,
            b"P5\n6 1\n255\n\xFF\xFF\xFF\0\xFF\xFF",
        ],
        report: b"trap report\npage 6 1 255 plates 3\nzone 0 samples 6 changed 2\nedges 1\nplate Cyan changed 1\nplate Magenta changed 1\nplate Foil changed 0\nend\n",
    },
    Worked {
        words: TWO_PLATES,
        job: &[DISABLED],
        plates: &[CYAN, MAGENTA],
        written: &[CYAN, MAGENTA],
        report: UNTRAPPED_REPORT,
    },
    Worked {
        words: TWO_PLATES,
        job: &[DISABLED],
        plates: &[b"P5\n# made by hand\n6 1\n255\n\0\0\0\xFF\xFF\xFF", MAGENTA],
        written: &[CYAN, MAGENTA],
        report: UNTRAPPED_REPORT,
    },
    Worked {
        words: ONE_PLATE,
        job: &[
            b"<< /HWResolution [72 72] /TrappingDetails << /Type 1001 /ColorantDetails << /Cyan << /NeutralDensity .61 >> >> >> >> setpagedevice",
            b" .5 .5 moveto 2.5 .5 lineto 2.5 1.5 lineto .5 1.5 lineto settrapzone showpage",
        ],
        plates: &[b"P5\n4 2\n255\n\0\0\0\0\0\0\0\0"],
        written: &[b"P5\n4 2\n255\n\0\0\0\0\0\0\0\0"],
        report: b"trap report\npage 4 2 255 plates 1\nzone 0 samples 6 changed 0\nzone 1 samples 2 changed 0\nedges 0\nplate Cyan changed 0\nend\n",
    },
    Worked {
        words: ONE_PLATE,
        job: &[
            b"<< /HWResolution [72 72] /TrappingDetails << /Type 1001 /ColorantDetails << /Cyan << /NeutralDensity .61 >> >> >> >> setpagedevice",
            b" .5 .5 moveto 0 0 rmoveto 2 0 rlineto 0 1 rlineto -2 0 rlineto settrapzone showpage",
        ],
        plates: &[b"P5\n4 2\n255\n\0\0\0\0\0\0\0\0"],
        written: &[b"P5\n4 2\n255\n\0\0\0\0\0\0\0\0"],
        report: b"trap report\npage 4 2 255 plates 1\nzone 0 samples 6 changed 0\nzone 1 samples 2 changed 0\nedges 0\nplate Cyan changed 0\nend\n",
    },
    Worked {
        words: TWO_PLATES,
        job: &[INKS, SET, b"/TrapWidth 5 /SlidingTrapLimit 1", END],
        plates: &[TALL_CYAN, TALL_MAGENTA],
        written: &[b"P5\n1 12\n255\n\0\0\0\0\0\0\0\0\0\0\0\xFF", TALL_MAGENTA],
        report: b"trap report\npage 1 12 255 plates 2\nzone 0 samples 12 changed 5\nedges 1\nplate Cyan changed 5\nplate Magenta changed 0\nend\n",
    },
    Worked {
        words: TWO_PLATES,
        job: &[INKS, SET, b"/TrapWidth 100", END],
        plates: &[CYAN, MAGENTA],
        written: &[b"P5\n6 1\n255\n\0\0\0\0\0\0", b"P5\n6 1\n255\n\0\0\0\0\0\0"],
        report: b"trap report\npage 6 1 255 plates 2\nzone 0 samples 6 changed 6\nedges 1\nplate Cyan changed 3\nplate Magenta changed 3\nend\n",
    },
    Worked {
        words: TWO_PLATES,
        job: &[INKS, SET, b"/TrapWidth 0 /TrapWidth 2", END],
        plates: &[CYAN, MAGENTA],
        written: &[TRAPPED_CYAN, TRAPPED_MAGENTA],
        report: TRAPPED_REPORT,
    },
    Worked {
        words: "page job report Cyan:in0:out0 Magenta:in1:out1 Yellow:in2:out2 Black:in3:out3",
        job: &[
            b"%!PS\n",
            INKS,
            b"<< /HWResolution [600 600] /Trapping true >> setpagedevice ",
            SET,
            b"/TrapWidth 0.25 /BlackWidth 2",
            b" >> settrapparams 0 0 moveto 612 0 lineto 612 792 lineto 0 792 lineto closepath settrapzone << /Enabled false >> settrapparams 1.08 0 moveto 612 0 lineto 612 792 lineto 1.08 792 lineto closepath settrapzone showpage",
        ],
        plates: &[
            b"P5\n12 2\n255\n\xFF\xFF\xFF\0\0\0\xFF\xFF\xFF\xFF\xFF\xFF\xFF\xFF\xFF\0\0\0\xFF\xFF\xFF\xFF\xFF\xFF",
            b"P5\n12 2\n255\n\xFF\xFF\xFF\xFF\xFF\xFF\xFF\xFF\xFF\0\0\0\xFF\xFF\xFF\xFF\xFF\xFF\xFF\xFF\xFF\0\0\0",
            b"P5\n12 2\n255\n\xFF\xFF\xFF\xFF\xFF\xFF\0\0\0\xFF\xFF\xFF\xFF\xFF\xFF\xFF\xFF\xFF\0\0\0\xFF\xFF\xFF",
            b"P5\n12 2\n255\n\0\0\0\xFF\xFF\xFF\xFF\xFF\xFF\xFF\xFF\xFF\0\0\0\xFF\xFF\xFF\xFF\xFF\xFF\xFF\xFF\xFF",
        ],
        written: &[
            b"P5\n12 2\n255\n\0\0\0\0\0\0\xFF\xFF\xFF\xFF\xFF\xFF\0\0\0\0\0\0\xFF\xFF\xFF\xFF\xFF\xFF",
            b"P5\n12 2\n255\n\xFF\xFF\xFF\xFF\xFF\xFF\xFF\xFF\xFF\0\0\0\xFF\xFF\xFF\xFF\xFF\xFF\xFF\xFF\xFF\0\0\0",
            b"P5\n12 2\n255\n\xFF\xFF\xFF\xFF\xFF\0\0\0\0\xFF\xFF\xFF\xFF\xFF\xFF\xFF\xFF\0\0\0\0\xFF\xFF\xFF",
            b"P5\n12 2\n255\n\0\0\0\xFF\xFF\xFF\xFF\xFF\xFF\xFF\xFF\xFF\0\0\0\xFF\xFF\xFF\xFF\xFF\xFF\xFF\xFF\xFF",
        ],
        report: b"trap report\npage 12 2 255 plates 4\nzone 0 samples 0 changed 0\nzone 1 samples 18 changed 8\nzone 2 samples 6 changed 0\nedges 4\nplate Cyan changed 6\nplate Magenta changed 0\nplate Yellow changed 2\nplate Black changed 0\nend\n",
    },
    Worked {
        words: TWO_PLATES,
        job: &[INKS, WIDE],
        plates: &[DEEP_CYAN, DEEP_MAGENTA],
        written: &[
            b"P5\n6 1\n65535\n\0\0\0\0\0\0\0\0\xFF\xFF\xFF\xFF",
            b"P5\n6 1\n65535\n\xFF\xFF\xFF\xFF\0\0\0\0\0\0\0\0",
        ],
        report: b"trap report\npage 6 1 65535 plates 2\nzone 0 samples 6 changed 2\nedges 1\nplate Cyan changed 1\nplate Magenta changed 1\nend\n",
    },
    Worked {
        words: TWO_PLATES,
        job: &[
            INKS,
            SET,
            b"/TrapWidth 2 /SlidingTrapLimit 1 /TrapColorScaling 0",
            END,
        ],
        plates: &[DEEP_CYAN, DEEP_MAGENTA],
        written: &[
            b"P5\n6 1\n65535\n\0\0\0\0\0\0q\xFCq\xFC\xFF\xFF",
            b"P5\n6 1\n65535\n\xFF\xFF\xFF\xFF\xFF\xFFq\xFCq\xFC\0\0",
        ],
        report: b"trap report\npage 6 1 65535 plates 2\nzone 0 samples 6 changed 2\nedges 1\nplate Cyan changed 2\nplate Magenta changed 2\nend\n",
    },
    Worked {
        words: TWO_PLATES,
        job: &[
            INKS,
            SET,
            b"/TrapWidth 2 /ColorantZoneDetails << /Cyan << /StepLimit .3 >> >>",
            END,
        ],
        plates: &[b"P5\n2 1\n100\nKd", b"P5\n2 1\n100\ndK"],
        written: &[b"P5\n2 1\n100\nKd", b"P5\n2 1\n100\ndK"],
        report: b"trap report\npage 2 1 100 plates 2\nzone 0 samples 2 changed 0\nedges 0\nplate Cyan changed 0\nplate Magenta changed 0\nend\n",
    },
    Worked {
        words: TWO_PLATES,
        job: &[
            INKS,
            SET,
            b"/TrapWidth 2 /ColorantZoneDetails << /Cyan << /StepLimit .2 >> >>",
            END,
        ],
        plates: &[b"P5\n2 1\n100\nLd", b"P5\n2 1\n100\ndK"],
        written: &[b"P5\n2 1\n100\nLL", b"P5\n2 1\n100\nKK"],
        report: b"trap report\npage 2 1 100 plates 2\nzone 0 samples 2 changed 2\nedges 1\nplate Cyan changed 1\nplate Magenta changed 1\nend\n",
    },
];

// The table stands in a function of its own: a function that names it is proved with all its rows.
fn pages() -> &'static [Worked] {
    PAGES
}

// Numbers of workers, and of the rows of a band.
const WORKERS: &[u32] = &[1, 2, 3, 7, 64];

const BANDS: &[u32] = &[1, 2, 5, 64, 4096];

// Whether the page of these words is trapped as it has to be, and nothing is printed.
fn is_trapped(
    rt: &(impl Abort + Threads + Sync),
    alloc: Global,
    page: &Worked,
    words: &str,
) -> bool {
    let case = Case {
        words,
        job: page.job,
        plates: page.plates,
        ..USUAL
    };
    ends(rt, alloc, case, 0, Look::Written(page.written, page.report))
}

#[test]
fn pages_are_trapped_and_reported(rt: HostRuntime) {
    for (number, page) in pages().iter().enumerate() {
        judge(
            &rt,
            is_trapped(&rt, rt.alloc(), page, page.words),
            page.words,
            number as u64,
        );
    }
}

// The words of a page with such options.
fn words_by(rt: &impl Abort, alloc: Global, words: &str, workers: u32, band: u32) -> String {
    let rest = words.strip_prefix("page ").unwrap_or(words);
    format!(in alloc; "page --workers {workers} --band {band} {rest}").expect(rt, "no memory")
}

// Whether the page is trapped so by that many workers, in bands of that many rows.
fn judge_by(
    rt: &(impl Abort + Threads + Sync),
    alloc: Global,
    (number, page): (usize, &Worked),
    workers: u32,
    band: u32,
) {
    let words = words_by(rt, alloc, page.words, workers, band);
    judge(
        rt,
        is_trapped(rt, alloc, page, words.as_str()),
        words.as_str(),
        number as u64,
    );
}

fn judge_bands(
    rt: &(impl Abort + Threads + Sync),
    alloc: Global,
    page: (usize, &Worked),
    workers: u32,
) {
    for band in BANDS {
        judge_by(rt, alloc, page, workers, *band);
    }
}

fn judge_workers(rt: &(impl Abort + Threads + Sync), alloc: Global, page: (usize, &Worked)) {
    for workers in WORKERS {
        judge_bands(rt, alloc, page, *workers);
    }
}

#[test]
fn workers_and_bands_change_nothing(rt: HostRuntime) {
    for page in pages().iter().enumerate() {
        judge_workers(&rt, rt.alloc(), page);
    }
}
