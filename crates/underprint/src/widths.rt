ghost use Rattle.std.specs.Prelude.{◌≡◌, ◌≤◌, IfSome};
ghost use Rattle.page_model.specs.Limits.{most_trap_width};
ghost use Rattle.underprint.specs.Underprint.{width_in as width_spec};

use crate::parts::White;
use lists::names::same_name;

/// By which width the ink of this name is drawn back, if it is an underprint.
pub(crate) fn width_in(whites: &[White], name: &[u8]) -> Option<u32>
    ensures value { result ≡ width_spec whites.now name.now }
    ensures narrow { IfSome result (λ n. n ≤ most_trap_width) }
{
    match whites {
        [first, rest @ ..] => {
            if same_name(name, first.name.as_slice()) {
                Some(first.width)
            } else {
                width_in(rest, name)
            }
        }
        [] => None,
    }
}
