ghost use Rattle.std.specs.Prelude.{◌≡◌};
ghost use Rattle.band_core.specs.Boards.{state_free, state_claimed, state_done};

/// The state of a piece.
#[derive(Clone, Copy, Drop)]
pub enum State {
    Free,
    Claimed,
    Done,
}

impl State {
    /// Whether the piece is free: no worker has claimed it.
    pub fn is_free(self) -> bool
        ensures { result ≡ state_free self }
    {
        match self {
            State::Free => true,
            State::Claimed => false,
            State::Done => false,
        }
    }

    /// Whether the piece is claimed, and not done yet.
    pub fn is_claimed(self) -> bool
        ensures { result ≡ state_claimed self }
    {
        match self {
            State::Free => false,
            State::Claimed => true,
            State::Done => false,
        }
    }

    /// Whether the piece is done.
    pub fn is_done(self) -> bool
        ensures { result ≡ state_done self }
    {
        match self {
            State::Free => false,
            State::Claimed => false,
            State::Done => true,
        }
    }
}
