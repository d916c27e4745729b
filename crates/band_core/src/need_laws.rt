// Laws over the definitions: each function does nothing, and its contract is the law.

ghost use Rattle.std.specs.Prelude.{◌≡◌, ◌<◌, ℕ, true};
ghost use Rattle.page_model.specs.Bands.{AreBands};
ghost use Rattle.band_core.specs.Needs.{is_need};

use page_model::bands::Bands;

/// The needs of a piece have lesser numbers than the piece: the graph has no cycle, and the order of the numbers is a
/// topological order.
pub fn need_is_less_law()
    ensures { (bands : Bands) → AreBands bands → (i n : ℕ) → is_need bands i n ≡ true → n < i }
{}
