use super::{
    BOTH_CYAN_DOWN, BOTH_MAGENTA_DOWN, CYAN_DOWN, DOWN_REPORT, MAGENTA_DOWN, NARROW, Pieces, WIDE,
    Wanted, case_of, ends,
};
use sheet_geometry::budget::Budget;
use std::test::Fail;
use test_files::{
    CYAN, DISABLED, INKS, MAGENTA, TRAPPED_CYAN, TRAPPED_MAGENTA, TRAPPED_REPORT, UNSLID_CYAN,
    UNSLID_REPORT, UNTRAPPED_REPORT, WIDE as SPREAD,
};

const DARKER_SIDE: &[u8] = b"<< /TrapWidth 2 /SlidingTrapLimit 1 >> settrapparams showpage";

// A zone of five samples.
const ZONE: &[u8] =
    b"<< /TrapWidth 2 >> settrapparams 0 0 moveto 5 0 rlineto 0 1 rlineto -5 0 rlineto settrapzone showpage";

const ZONE_REPORT: &[u8] =
    b"trap report\npage 6 1 255 plates 2\nzone 0 samples 1 changed 0\nzone 1 samples 5 changed 2\nedges 1\nplate Cyan changed 1\nplate Magenta changed 1\nend\n";

const SHEETS: &[(Pieces<'static>, &[&[u8]], &[u8])] = &[
    (&[DISABLED], &[CYAN, MAGENTA], UNTRAPPED_REPORT),
    (
        &[INKS, SPREAD],
        &[TRAPPED_CYAN, TRAPPED_MAGENTA],
        TRAPPED_REPORT,
    ),
    (&[INKS, DARKER_SIDE], &[UNSLID_CYAN, MAGENTA], UNSLID_REPORT),
    (&[INKS, ZONE], &[TRAPPED_CYAN, TRAPPED_MAGENTA], ZONE_REPORT),
];

// One, two and 64 workers.
const WORKERS: &[&str] = &[
    "1 job report Cyan:in0:out0 Magenta:in1:out1",
    "2 job report Cyan:in0:out0 Magenta:in1:out1",
    "64 job report Cyan:in0:out0 Magenta:in1:out1",
];

const WINDOWS: &[Budget] = &[NARROW, WIDE];

#[test]
fn sheets_are_trapped_as_pages_are(rt: HostRuntime) -> Result<(), Fail> {
    for (job, plates, report) in SHEETS {
        for windows in WINDOWS {
            let case = case_of(job, &[&[CYAN], &[MAGENTA]], *windows);
            let wanted = Wanted {
                status: 0,
                reported: "",
                plates,
                report: Some(report),
            };
            assert!(rt; ends(&rt, rt.alloc(), case, wanted)?, "{plates:?}");
        }
    }
    Ok(())
}

#[test]
fn the_workers_change_nothing(rt: HostRuntime) -> Result<(), Fail> {
    for words in WORKERS {
        let mut case = case_of(&[INKS, SPREAD], &[&[CYAN], &[MAGENTA]], NARROW);
        case.words = words;
        let wanted = Wanted {
            status: 0,
            reported: "",
            plates: &[TRAPPED_CYAN, TRAPPED_MAGENTA],
            report: Some(TRAPPED_REPORT),
        };
        assert!(rt; ends(&rt, rt.alloc(), case, wanted)?, "{words}");
    }
    Ok(())
}

#[test]
fn strips_make_the_sheet(rt: HostRuntime) -> Result<(), Fail> {
    for windows in WINDOWS {
        let case = case_of(&[INKS, SPREAD], &[&[CYAN_DOWN], &[MAGENTA_DOWN]], *windows);
        let wanted = Wanted {
            status: 0,
            reported: "",
            plates: &[BOTH_CYAN_DOWN, BOTH_MAGENTA_DOWN],
            report: Some(DOWN_REPORT),
        };
        assert!(rt; ends(&rt, rt.alloc(), case, wanted)?);
    }
    Ok(())
}
