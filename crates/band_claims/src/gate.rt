ghost use Rattle.std.specs.Prelude.{◌≡◌, Some};

use crate::Pass;

/// A hook that is called at each claim that was won. It has no effect on the work, and must return.
pub trait Gate {
    /// Called when the pass has claimed the piece and holds it.
    fn claimed(&self, pass: &Pass, piece: u32)
        requires { pass.now.view.stored ≡ Some piece };
}

/// A gate that does nothing.
pub struct OpenGate;

impl Gate for OpenGate {
    fn claimed(&self, _pass: &Pass, _piece: u32) {}
}
