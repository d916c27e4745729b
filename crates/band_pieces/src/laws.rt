// What a receipt says of the work that the passes left undone: each function does nothing, and its contract is the law.

ghost use Rattle.band_pieces.specs.Left.{FirstAreDone, LeftForNeeds, LooksAreReported};

/// If no pass had published a piece when the table was closed, the last pass tells of a need of it that was not done.
pub fn left_for_needs_law()
    ensures { LeftForNeeds }
{}

/// A piece that needs no other was published by a pass before the table was closed.
pub fn first_are_done_law()
    ensures { FirstAreDone }
{}

/// The looks of a receipt are the last that its pass was told, and no word that it was told of a piece is less than an
/// earlier one.
pub fn looks_are_reported_law()
    ensures { LooksAreReported }
{}
