ghost use Rattle.std.specs.Prelude.{◌≡◌, ◌<◌, length};
ghost use Rattle.page_model.specs.Apart.{falls, apart};
ghost use Rattle.page_model.specs.Page.{plates, InPage};
ghost use Rattle.lists.specs.Words.{any_below};

use page_model::bounds::SCALE;
use page_model::page::Page;
use page_model::parts::At;

/// Whether plate c's ink counts, and its tint falls from p to q by at least its limit in the zone.
fn falls_at(page: &Page, zone: u32, p: At, q: At, c: u32) -> bool
    requires zone { zone < length page.now.zones }
    requires plate { c < plates page.now }
    requires p { InPage page.now p }
    requires q { InPage page.now q }
    ensures { result ≡ falls page.now zone p q c }
{
    let here = page.tint(c, p.x, p.y);
    let there = page.tint(c, q.x, q.y);
    // most tints are the same on both sides, and the limit is sought by name
    there < here
        && page.ink(c).kind.counts()
        && u64::from(page.step_limit(zone, c)) * u64::from(page.maxval())
            <= u64::from(here - there) * u64::from(SCALE)
}

fn some_falls(page: &Page, zone: u32, p: At, q: At) -> bool
    requires zone { zone < length page.now.zones }
    requires p { InPage page.now p }
    requires q { InPage page.now q }
    ensures { result ≡ any_below (falls page.now zone p q) (plates page.now) }
{
    let mut any = false;
    for c in 0..page.plates() {
        any = any || falls_at(page, zone, p, q, c);
    }
    any
}

/// Whether a gap would show between two samples by the step limits of the zone: the tint of one ink that counts falls
/// from p to q, and that of another falls from q to p, each by at least its limit.
pub fn steps_apart(page: &Page, zone: u32, p: At, q: At) -> bool
    requires zone { zone < length page.now.zones }
    requires p { InPage page.now p }
    requires q { InPage page.now q }
    ensures { result ≡ apart page.now zone p q }
{
    some_falls(page, zone, p, q) && some_falls(page, zone, q, p)
}
