// Laws over the definitions: each function does nothing, and its contract is the law.

ghost use Rattle.page_model.specs.Tints.{trapped_planes};
ghost use Rattle.page_model.specs.Shapes.{AreOneShape};

use crate::page::Page;

/// The planes of a page are of one shape, and so are they after trapping.
pub fn page_planes_law(page: &Page)
    ensures before { AreOneShape page.now.planes }
    ensures after { AreOneShape (trapped_planes page.now) }
{
    let _valid = page.plates();
}
