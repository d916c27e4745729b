// The number of samples of a page.

ghost use Rattle.std.specs.Prelude.{◌≡◌, ◌≤◌, ◌^◌};
ghost use Rattle.page_model.specs.Page.{samples};

use page_model::page::Page;

/// The number of samples of one plate of the page: width times height.
pub fn samples_of(page: &Page) -> usize
    ensures value { result ≡ samples page.now }
    ensures bound { result ≤ 2 ^ 28 }
{
    page.width() as usize * page.height() as usize
}
