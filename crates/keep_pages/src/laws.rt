// Laws over the definitions: each function does nothing, and its contract is the law.

ghost use Rattle.std.specs.Prelude.{◌≡◌, ◌≤◌, ◌*◌, All, length};
ghost use Rattle.page_model.specs.Conditions.{IsPlane};
ghost use Rattle.page_model.specs.Limits.{most_samples};
ghost use Rattle.page_model.specs.Page.{plates};
ghost use Rattle.keep_pages.specs.KeptPages.{kept_planes};

use crate::uses::KeepUse;
use page_model::page::Page;

/// The planes of a page are in range afterwards, and as many as before.
pub fn kept_planes_law(page: &Page, used: &KeepUse)
    ensures planes { All IsPlane (kept_planes page.now used.now) }
    ensures samples { All (λ plane. plane.width * plane.height ≤ most_samples)
        (kept_planes page.now used.now) }
    ensures count { length (kept_planes page.now used.now) ≡ plates page.now }
{
    let _valid = page.plates();
}
