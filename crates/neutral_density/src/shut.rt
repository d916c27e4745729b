ghost use Rattle.std.specs.Prelude.{◌≡◌, ◌<◌, ◌&&◌, nat_lt};
ghost use Rattle.page_model.specs.Density.{shut, shuts};
ghost use Rattle.page_model.specs.Page.{plates, InPage, ink_at, tint};

use page_model::page::Page;
use page_model::parts::At;

/// Whether plate c shuts the sample.
fn shuts_at(page: &Page, c: u32, p: At) -> bool
    requires plate { c < plates page.now }
    requires sample { InPage page.now p }
    ensures { result ≡ (shuts (ink_at page.now c).kind && nat_lt 0 (tint page.now c p)) }
{
    page.ink(c).kind.shuts() && page.tint(c, p.x, p.y) > 0
}

/// Whether an OpaqueIgnore ink has a tint above 0 at the sample, which then takes no part in trapping.
pub fn is_shut(page: &Page, p: At) -> bool
    requires { InPage page.now p }
    ensures { result ≡ shut page.now p }
{
    let mut any = false;
    for c in 0..page.plates() {
        any = any || shuts_at(page, c, p);
    }
    any
}
