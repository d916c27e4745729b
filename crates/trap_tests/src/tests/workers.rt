use super::{Case, END, INKS, Look, SET, TALL_CYAN, TALL_MAGENTA, USUAL, run_by};
use band_claims::{Gate, Pass};
use std::sync::atomic::{AtomicU64, Ordering};

// The pieces of the first phase of a page of twelve rows, in bands of one row.
const PIECES: u32 = 12;

// Each even piece of the first phase and the next odd one are a pair. The call for one of them raises a flag of its own,
// and then looks for that of the other; a flag is a bit of a number, by the piece.
#[derive(Drop)]
struct PairGate {
    // how often a call looks for the other one
    turns: u32,
    raised: AtomicU64,
    // the pieces whose call saw the other's flag
    met: AtomicU64,
}

impl Gate for PairGate {
    fn claimed(&self, _pass: &Pass, piece: u32) {
        if piece >= PIECES {
            return;
        }
        let other = if piece % 2 == 0 { piece + 1 } else { piece - 1 };
        self.raised.fetch_or(1 << piece, Ordering::SeqCst);
        for _ in 0..self.turns {
            if self.raised.load(Ordering::SeqCst) & (1 << other) != 0 {
                self.met.fetch_or(1 << piece, Ordering::SeqCst);
                return;
            }
        }
    }
}

fn pair_gate(turns: u32) -> PairGate {
    PairGate {
        turns,
        raised: AtomicU64::new(0),
        met: AtomicU64::new(0),
    }
}

fn case_of(words: &str) -> Case<'_> {
    Case {
        words,
        job: &[INKS, SET, b"/TrapWidth 5 /SlidingTrapLimit 1", END],
        plates: &[TALL_CYAN, TALL_MAGENTA],
        ..USUAL
    }
}

// The page of one column, trapped as it has to be.
const WHOLE: Look<'static> = Look::Written(
    &[b"P5\n1 12\n255\n\0\0\0\0\0\0\0\0\0\0\0\xFF", TALL_MAGENTA],
    b"trap report\npage 1 12 255 plates 2\nzone 0 samples 12 changed 5\nedges 1\nplate Cyan changed 5\nplate Magenta changed 0\nend\n",
);

fn meetings(gate: &PairGate) -> u64 {
    gate.met.load(Ordering::SeqCst)
}

#[test]
fn two_workers_hold_both_pieces_of_each_pair_at_once(rt: HostRuntime) {
    let gate = pair_gate(200_000_000);
    let case = case_of("page --workers 2 --band 1 job report Cyan:in0:out0 Magenta:in1:out1");
    let is = run_by(&rt, rt.alloc(), case, &gate, WHOLE);
    assert!(rt; is == (0, true));
    assert!(rt; meetings(&gate) == 0b1111_1111_1111);
}

// The second piece of each pair is claimed when the call for the first one has given up.
#[test]
fn one_worker_ends_without_a_meeting(rt: HostRuntime) {
    let gate = pair_gate(1_000_000);
    let case = case_of("page --workers 1 --band 1 job report Cyan:in0:out0 Magenta:in1:out1");
    let is = run_by(&rt, rt.alloc(), case, &gate, WHOLE);
    assert!(rt; is == (0, true));
    assert!(rt; meetings(&gate) == 0b1010_1010_1010);
}
