use super::{Case, Look, USUAL, ends, judge};

// The words of a sample page, the call of the rack that fails, the status, and the text that is printed.
const SAMPLES: &[(&str, Option<u64>, u8, &str)] = &[
    (
        "sample 0 16 8 2",
        None,
        0,
        "trap report\npage 16 8 255 plates 4\nzone 0 samples 128 changed 48\nedges 8\nplate Cyan changed 48\nplate Magenta changed 0\nplate Yellow changed 0\nplate Black changed 0\nend\n",
    ),
    ("sample 0 16 8 2", Some(0), 6, ""),
    (
        "sample 4 8 8 1",
        None,
        0,
        "trap report\npage 8 8 255 plates 4\nzone 0 samples 64 changed 0\nedges 0\nplate Cyan changed 0\nplate Magenta changed 0\nplate Yellow changed 0\nplate Black changed 0\nend\n",
    ),
    ("sample 0 16384 16384 2", None, 4, "page: TooManySamples\n"),
    ("sample 0 16384 16384 2", Some(0), 4, ""),
];

#[test]
fn sample_pages_tell_their_report(rt: HostRuntime) {
    for (words, rack_fails, wanted, text) in SAMPLES {
        let case = Case {
            words,
            rack_fails: *rack_fails,
            ..USUAL
        };
        let is = ends(&rt, rt.alloc(), case, *wanted, Look::Refused(text));
        judge(&rt, is, words, u64::from(*wanted));
    }
}
