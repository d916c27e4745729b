// Laws over the definitions: each function does nothing, and its contract is the law.

ghost use Rattle.std.specs.Prelude.{◌≡◌, ◌<◌, ◌≤◌, ℕ};
ghost use Rattle.page_model.specs.declared.parts.At.{At};
ghost use Rattle.keepaway.specs.declared.parts.RichBlack.{RichBlack};
ghost use Rattle.keepaway.specs.Laws.{LimitLaw, Locality};

use draw_back::laws::drawn_law;
use page_model::page::Page;

/// No ink is gained, and a tint changes only at a pixel that is covered and open, to that of a pixel at most the width
/// and half a pixel away that is not covered.
pub fn locality_law(page: &Page)
    ensures { (rich : RichBlack) (c : ℕ) (p : At) → Locality page.now rich c p }
{
    let _valid = page.plates();
    drawn_law();
}

/// The width is compared uncut.
pub fn limit_law()
    ensures { (wide resolution : ℕ) → LimitLaw wide resolution }
{}
