// Where the lines of a report go: a text in memory, or the open file of a rack.

ghost use Rattle.std.specs.Prelude.{◌≡◌, ◌++◌, ℕ, IsTrue, List, [], Ok, Err, OnOk, Result};
ghost use Rattle.outside.specs.declared.tray.DeviceError.{DeviceError};
ghost use Rattle.outside.specs.Writing.{WritesOn};

use outside::rack::Rack;
use outside::tray::DeviceError;
use outside::writing::write_on;
use std::alloc::Global;

/// A place that pieces of text are added to, one after the other.
pub(crate) trait Sink {
    /// Whether it takes a piece.
    ghost is_open: { Self → Type 0 };

    /// What a call that adds these bytes makes of it: before, after, and the result.
    ghost adds: { List ℕ → Self → Self → Result (Unit {0}) DeviceError → Type 0 };

    /// Adds a piece at the end.
    fn add(&mut self, piece: &[u8]) -> Result<(), DeviceError>
        requires { is_open self.old }
        ensures open { is_open self.new }
        ensures added { adds piece.now self.old self.new result };

    /// Nothing is added by no call.
    ghost nothing: { (s : Self) → adds [] s s (Ok tt) };

    /// One piece after another is both as one.
    ghost then: { (a b : List ℕ) (r s t : Self) (result : Result (Unit {0}) DeviceError)
        → adds a r s (Ok tt) → adds b s t result → adds (a ++ b) r t result };

    /// Where a call failed, what was to follow is not added.
    ghost stopped: { (a b : List ℕ) (r s : Self) (failed : DeviceError)
        → adds a r s (Err failed) → adds (a ++ b) r s (Err failed) };
}

/// A text in memory.
#[derive(Drop)]
pub(crate) struct Text {
    pub(crate) bytes: Vec<u8>,
}

impl Text {
    /// The empty text.
    pub(crate) fn new(alloc: Global) -> Text
        ensures { result.bytes.items ≡ [] }
    {
        Text {
            bytes: Vec::new(alloc),
        }
    }
}

impl Sink for Text {
    ghost use Rattle.std.proofs.Common.{rules};
    ghost use Rattle.std.proofs.lemmas.Grind.{common_steps};

    ghost is_open = { λ text. Unit {0} };

    ghost adds = { λ piece before after result.
        OnOk result (after.bytes.items ≡ before.bytes.items ++ piece) };

    fn add(&mut self, piece: &[u8]) -> Result<(), DeviceError> {
        self.bytes.extend_from_slice(piece).map_err(|_| DeviceError)
    }

    ghost nothing = { Prim.search (rules, common_steps) };

    ghost then = { Prim.search (rules, common_steps) };

    ghost stopped = { Prim.search (rules, common_steps) };
}

impl<R: Rack> Sink for R {
    ghost use Rattle.std.proofs.Common.{rules};
    ghost use Rattle.std.proofs.lemmas.Grind.{common_steps};
    ghost use Rattle.outside.proofs.Steps.{writes_stopped, writes_then};

    ghost is_open = { λ rack. IsTrue (R.state rack).is_open };

    ghost adds = { λ piece before after result.
        WritesOn piece (R.state before) (R.state after) result };

    fn add(&mut self, piece: &[u8]) -> Result<(), DeviceError> {
        write_on(self, piece)
    }

    ghost nothing = { Prim.search (rules, common_steps) };

    ghost then = { λ a b r s t result.
        writes_then a b (R.state r) (R.state s) (R.state t) tt result };

    ghost stopped = { λ a b r s failed.
        writes_stopped a b (R.state r) (R.state s) failed failed };
}
