use super::{
    CYAN, DARKER_SIDE, DISABLED, INKS, Look, MAGENTA, Pieces, SHOW, TRAPPED_CYAN, TRAPPED_MAGENTA,
    TRAPPED_REPORT, UNSLID_CYAN, UNSLID_REPORT, UNTRAPPED_REPORT, WIDE, files_end, judge,
};
use std::alloc::Global;
use std::process::Abort;
use std::thread::Threads;

// The pieces of a run's job, and those of both plates' files.
type Files = &'static [Pieces<'static>];

// How a run ends: its status, what is printed, and the files of all pages in their order.
#[derive(Clone, Copy)]
struct Wanted {
    status: u8,
    reported: &'static str,
    files: &'static [&'static [u8]],
}

// A zone of five samples, and two zones, of which the lower one is not enabled.
const ZONE: &[u8] =
    b"<< /TrapWidth 2 >> settrapparams 0 0 moveto 5 0 rlineto 0 1 rlineto -5 0 rlineto settrapzone showpage";

const TWO_ZONES: &[u8] =
    b" << /Enabled false >> settrapparams 0 0 moveto 6 0 rlineto 0 1 rlineto -6 0 rlineto settrapzone 2 0 moveto 4 0 rlineto 0 1 rlineto -4 0 rlineto << /Enabled true >> settrapparams settrapzone showpage";

// Half the resolution, under which the trap of the darker side has one sample; and details by which Cyan is the darker one.
const COARSE: &[u8] =
    b" << /HWResolution [36 36] >> setpagedevice << /SlidingTrapLimit 1 >> settrapparams showpage";

const OTHER_INKS: &[u8] =
    b" << /TrappingDetails << /Type 1001 /ColorantDetails << /Cyan << /NeutralDensity 0.76 >> /Magenta << /NeutralDensity 0.61 >> >> >> >> setpagedevice << /StepLimit 0.5 /TrapWidth 4 >> settrapparams showpage";

// A step of half an ink, which is no edge where the limit of that ink is above it.
const PALE_CYAN: &[u8] = b"P5\n6 1\n255\n\x7F\x7F\x7F\xFF\xFF\xFF";

const UNSLID_PALE_CYAN: &[u8] = b"P5\n6 1\n255\n\x7F\x7F\x7F\x7F\x7F\xFF";

const CYAN_LIMIT: &[u8] =
    b" << /ColorantZoneDetails << /Cyan << /StepLimit 0.6 >> >> >> settrapparams showpage";

const MAGENTA_LIMIT: &[u8] =
    b" << /ColorantZoneDetails << /Magenta << /StepLimit 0.6 >> >> >> settrapparams showpage";

// Runs over these files, and how they end.
const RUNS: &[(Files, Wanted)] = &[
    // the parameters of a page go on to the next one
    (
        &[
            &[INKS, WIDE, DARKER_SIDE],
            &[CYAN, CYAN],
            &[MAGENTA, MAGENTA],
        ],
        Wanted {
            status: 0,
            reported: "",
            files: &[
                TRAPPED_CYAN,
                TRAPPED_MAGENTA,
                TRAPPED_REPORT,
                UNSLID_CYAN,
                MAGENTA,
                UNSLID_REPORT,
            ],
        },
    ),
    (
        &[&[INKS, WIDE, DARKER_SIDE], &[CYAN], &[MAGENTA, MAGENTA]],
        Wanted {
            status: 4,
            reported: "page 1: plate 0: Ends\n",
            files: &[TRAPPED_CYAN, TRAPPED_MAGENTA, TRAPPED_REPORT],
        },
    ),
    (
        &[
            &[DISABLED, b" 5 showpage"],
            &[CYAN, CYAN],
            &[MAGENTA, MAGENTA],
        ],
        Wanted {
            status: 3,
            reported: "page 1: job: WrongOperands at 46\n",
            files: &[CYAN, MAGENTA, UNTRAPPED_REPORT],
        },
    ),
    (
        &[&[DISABLED], &[CYAN, CYAN], &[MAGENTA, MAGENTA]],
        Wanted {
            status: 4,
            reported: "run: plate 0: Extra\n",
            files: &[CYAN, MAGENTA, UNTRAPPED_REPORT],
        },
    ),
    // a page without an enabled zone between two others
    (
        &[
            &[
                INKS,
                WIDE,
                b" << /Enabled false >> settrapparams showpage << /Enabled true >> settrapparams",
                SHOW,
            ],
            &[CYAN, CYAN, CYAN],
            &[MAGENTA, MAGENTA, MAGENTA],
        ],
        Wanted {
            status: 0,
            reported: "",
            files: &[
                TRAPPED_CYAN,
                TRAPPED_MAGENTA,
                TRAPPED_REPORT,
                CYAN,
                MAGENTA,
                UNTRAPPED_REPORT,
                TRAPPED_CYAN,
                TRAPPED_MAGENTA,
                TRAPPED_REPORT,
            ],
        },
    ),
    // the resolution and the details change
    (
        &[
            &[INKS, WIDE, COARSE, OTHER_INKS],
            &[CYAN, CYAN, CYAN],
            &[MAGENTA, MAGENTA, MAGENTA],
        ],
        Wanted {
            status: 0,
            reported: "",
            files: &[
                TRAPPED_CYAN,
                TRAPPED_MAGENTA,
                TRAPPED_REPORT,
                TRAPPED_CYAN,
                MAGENTA,
                b"trap report\npage 6 1 255 plates 2\nzone 0 samples 6 changed 1\nedges 1\nplate Cyan changed 1\nplate Magenta changed 0\nend\n",
                CYAN,
                b"P5\n6 1\n255\n\xFF\0\0\0\0\0",
                b"trap report\npage 6 1 255 plates 2\nzone 0 samples 6 changed 2\nedges 1\nplate Cyan changed 0\nplate Magenta changed 2\nend\n",
            ],
        },
    ),
    // step limits of its own for one ink, which stay in force, and then for the other alone
    (
        &[
            &[INKS, WIDE, CYAN_LIMIT, SHOW, MAGENTA_LIMIT],
            &[PALE_CYAN, PALE_CYAN, PALE_CYAN, PALE_CYAN],
            &[MAGENTA, MAGENTA, MAGENTA, MAGENTA],
        ],
        Wanted {
            status: 0,
            reported: "",
            files: &[
                UNSLID_PALE_CYAN,
                MAGENTA,
                UNSLID_REPORT,
                PALE_CYAN,
                MAGENTA,
                UNTRAPPED_REPORT,
                PALE_CYAN,
                MAGENTA,
                UNTRAPPED_REPORT,
                UNSLID_PALE_CYAN,
                MAGENTA,
                UNSLID_REPORT,
            ],
        },
    ),
    // the zones of a page do not go on
    (
        &[
            &[INKS, ZONE, SHOW, TWO_ZONES],
            &[CYAN, CYAN, CYAN],
            &[MAGENTA, MAGENTA, MAGENTA],
        ],
        Wanted {
            status: 0,
            reported: "",
            files: &[
                TRAPPED_CYAN,
                TRAPPED_MAGENTA,
                b"trap report\npage 6 1 255 plates 2\nzone 0 samples 1 changed 0\nzone 1 samples 5 changed 2\nedges 1\nplate Cyan changed 1\nplate Magenta changed 1\nend\n",
                TRAPPED_CYAN,
                TRAPPED_MAGENTA,
                TRAPPED_REPORT,
                TRAPPED_CYAN,
                TRAPPED_MAGENTA,
                b"trap report\npage 6 1 255 plates 2\nzone 0 samples 0 changed 0\nzone 1 samples 2 changed 0\nzone 2 samples 4 changed 2\nedges 1\nplate Cyan changed 1\nplate Magenta changed 1\nend\n",
            ],
        },
    ),
    // pages of other sides and another maxval
    (
        &[
            &[INKS, WIDE, SHOW],
            &[CYAN, b"P5\n2 1\n100\nKd"],
            &[MAGENTA, b"P5\n2 1\n100\ndK"],
        ],
        Wanted {
            status: 0,
            reported: "",
            files: &[
                TRAPPED_CYAN,
                TRAPPED_MAGENTA,
                TRAPPED_REPORT,
                b"P5\n2 1\n100\nKK",
                b"P5\n2 1\n100\nKK",
                b"trap report\npage 2 1 100 plates 2\nzone 0 samples 2 changed 2\nedges 1\nplate Cyan changed 1\nplate Magenta changed 1\nend\n",
            ],
        },
    ),
];

fn runs() -> &'static [(Files, Wanted)] {
    RUNS
}

fn run_ends(
    rt: &(impl Abort + Threads + Sync),
    alloc: Global,
    files: Files,
    wanted: Wanted,
) -> bool {
    let look = Look::Left(wanted.reported, wanted.files);
    files_end(rt, alloc, files, wanted.status, look)
}

#[test]
fn each_page_is_that_of_its_own_job_and_images(rt: HostRuntime) {
    for (row, (files, wanted)) in runs().iter().enumerate() {
        let is = run_ends(&rt, rt.alloc(), files, *wanted);
        judge(&rt, is, "run", row as u64);
    }
}
