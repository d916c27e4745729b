ghost use Rattle.std.specs.Prelude.{◌≡◌, ◌≤◌, length};
ghost use Rattle.ps_tokens.specs.Parameters.{name_of, least_of, most_of};

use page_model::bounds::SCALE;

/// A parameter of the job language whose value can be of the wrong kind or out of its range.
#[derive(Clone, Copy, Debug, Drop, PartialEq, Eq)]
pub enum Key {
    TrapWidth,
    BlackWidth,
    BlackColorLimit,
    BlackDensityLimit,
    StepLimit,
    SlidingTrapLimit,
    TrapColorScaling,
    Enabled,
    Trapping,
}

impl Key {
    /// The parameter's name in a job (PLRM3, section 6.3, in this project's profile) and in a fault's line.
    pub fn name(self) -> &'static [u8]
        ensures name { result.now ≡ name_of self }
        ensures short { length result.now ≤ 20 }
    {
        match self {
            Key::TrapWidth => b"TrapWidth",
            Key::BlackWidth => b"BlackWidth",
            Key::BlackColorLimit => b"BlackColorLimit",
            Key::BlackDensityLimit => b"BlackDensityLimit",
            Key::StepLimit => b"StepLimit",
            Key::SlidingTrapLimit => b"SlidingTrapLimit",
            Key::TrapColorScaling => b"TrapColorScaling",
            Key::Enabled => b"Enabled",
            Key::Trapping => b"Trapping",
        }
    }

    /// The least and the greatest number that the parameter may be, in ten-thousandths. The two booleans have none.
    pub fn range(self) -> (u32, u32)
        ensures least { result.0 ≡ least_of self }
        ensures most { result.1 ≡ most_of self }
    {
        match self {
            Key::TrapWidth => (1, 1_000_000),
            Key::BlackWidth => (1, 100_000),
            Key::BlackColorLimit => (0, SCALE),
            Key::BlackDensityLimit => (10, 100_000),
            Key::StepLimit => (0, SCALE),
            Key::SlidingTrapLimit => (0, SCALE),
            Key::TrapColorScaling => (0, SCALE),
            Key::Enabled => (0, 0),
            Key::Trapping => (0, 0),
        }
    }
}
