ghost use Rattle.std.specs.Prelude.{◌≡◌, ◌<◌};
ghost use Rattle.page_model.specs.Page.{plates, InPage};
ghost use Rattle.page_model.specs.Within.{black_plate, black_sample};

use page_model::bounds::SCALE;
use page_model::page::Page;
use page_model::parts::{At, TrapParams};

fn black_at(page: &Page, params: &TrapParams, p: At, c: u32) -> bool
    requires plate { c < plates page.now }
    requires sample { InPage page.now p }
    ensures { result ≡ black_plate page.now params.now p c }
{
    let tint = page.tint(c, p.x, p.y);
    let ink = page.ink(c);
    ink.kind.counts()
        && params.black_density_limit <= ink.density
        && tint > 0
        && u64::from(params.black_color_limit) * u64::from(page.maxval())
            <= u64::from(tint) * u64::from(SCALE)
}

/// Whether the sample has an ink that counts as black by these parameters: its density is at least BlackDensityLimit,
/// and its tint is above 0 and at least BlackColorLimit.
pub fn is_black(page: &Page, params: &TrapParams, p: At) -> bool
    requires { InPage page.now p }
    ensures { result ≡ black_sample page.now params.now p }
{
    let mut any = false;
    for c in 0..page.plates() {
        any = any || black_at(page, params, p, c);
    }
    any
}
