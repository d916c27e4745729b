// Laws over the definitions: each function does nothing, and its contract is the law.

ghost use Rattle.std.specs.Prelude.{ℕ, List};
ghost use Rattle.page_model.specs.declared.parts.At.{At};
ghost use Rattle.underprint.specs.declared.parts.White.{White};
ghost use Rattle.underprint.specs.Laws.{Locality};

use draw_back::laws::drawn_law;
use page_model::page::Page;

/// No ink is gained, and a tint changes only on the plate of an underprint, at a pixel that is covered, to that of a
/// pixel at most the width and half a pixel away that is not covered.
pub fn locality_law(page: &Page)
    ensures { (whites : List White) (c : ℕ) (p : At) → Locality page.now whites c p }
{
    let _valid = page.plates();
    drawn_law();
}
