// The samples of a page by their numbers.

ghost use Rattle.std.specs.Prelude.{◌≡◌, ◌<◌, ◌≤◌, ◌^◌};
ghost use Rattle.page_model.specs.Page.{InPage, samples, sample_at};

use page_model::page::Page;
use page_model::parts::At;

/// How many samples the page has.
pub fn samples_of(page: &Page) -> usize
    ensures value { result ≡ samples page.now }
    ensures bound { result ≤ 2 ^ 28 }
{
    page.width() as usize * page.height() as usize
}

/// The sample of a number, counted row by row from the top.
pub fn sample_of(page: &Page, k: usize) -> At
    requires { k < samples page.now }
    ensures value { result ≡ sample_at page.now k }
    ensures inside { InPage page.now result }
{
    let width = page.width() as usize;
    At {
        x: (k % width) as u32,
        y: (k / width) as u32,
    }
}
