// Laws over the definitions: each function does nothing, and its contract is the law.

ghost use Rattle.std.specs.Prelude.{◌≡◌, ◌+◌, ◌*◌, ◌-◌, ◌≤◌, true};
ghost use Rattle.page_model.specs.Density.{density, density_of};
ghost use Rattle.page_model.specs.Page.{params_at};
ghost use Rattle.page_model.specs.Tints.{full_density, new_by};
ghost use Rattle.page_model.specs.Trapped.{trapped};
ghost use Rattle.page_model.specs.Zones.{zone_of};
ghost use Rattle.page_model.specs.Limits.{scale};
ghost use Rattle.trap_color.specs.Opaque.{HasNoOpaque};

use page_model::laws::full_density_law;
use page_model::page::Page;
use page_model::parts::{At, EdgeAt};

/// On a page without an Opaque ink a trap adds at most TrapColorScaling of the density that the full tints would add.
pub fn density_law(page: &Page, p: At, e: EdgeAt)
    requires inks { HasNoOpaque page.now }
    requires trapped { trapped page.now p e ≡ true }
    ensures { density_of page.now (new_by page.now p e) * scale
        ≤ density page.now p * scale
        + (params_at page.now (zone_of page.now p)).trap_color_scaling
        * (full_density page.now p e - density page.now p) }
{
    full_density_law(page, p, e);
}
