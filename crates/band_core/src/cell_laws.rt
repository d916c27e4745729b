// Laws over the definitions: each function does nothing, and its contract is the law.

ghost use Rattle.std.specs.Prelude.{◌≡◌, ℕ, ◌+◌, ◌<◌, ◌^◌, List, All, length, slice_index};
ghost use Rattle.band_core.specs.Layouts.{Layout, IsLayout};
ghost use Rattle.band_core.specs.Packing.{packed, lane};
ghost use Rattle.band_core.specs.Places.{HasCell, piece_count, piece_of_cell, cells_of, first_cell_of, cell_total};

/// Unpacking gives back each value that was packed.
pub fn unpack_gives_back_law()
    ensures { (bits : ℕ) (vs : List ℕ) (j : ℕ) → All (λ v. v < 2 ^ bits) vs → j < length vs
        → lane bits (packed bits vs) j ≡ slice_index vs j }
{}

/// The cells of the pieces follow one another without a gap.
pub fn one_after_the_other_law()
    ensures { (layout : Layout) (i : ℕ)
        → first_cell_of layout (i + 1) ≡ first_cell_of layout i + cell_total layout i }
{}

/// Each cell belongs to exactly one piece.
pub fn one_piece_each_law()
    ensures owner { (layout : Layout) (j : ℕ) → j < cells_of layout
        → (piece_of_cell layout j < piece_count layout)
        × HasCell layout (piece_of_cell layout j) j }
    ensures only { (layout : Layout) (i j : ℕ) → i < piece_count layout → HasCell layout i j
        → piece_of_cell layout j ≡ i }
{}

/// The number of all cells is below 2^31.
pub fn cells_fit_law()
    ensures { (layout : Layout) → IsLayout layout → cells_of layout < 2 ^ 31 }
{}
