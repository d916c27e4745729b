ghost use Rattle.std.specs.Prelude.{◌≡◌, filter};
ghost use Rattle.std.specs.List.{list_any};
ghost use Rattle.std.specs.Str.{bytes_eq};

use crate::parts::{LimitList, NameList};
use lists::names::same_name;

/// Whether a name is in a list of names.
fn is_named(name: &[u8], names: &NameList) -> bool
    ensures { result ≡ list_any (λ n. bytes_eq n name.now) names.now }
{
    names
        .as_slice()
        .iter()
        .any(|n| same_name(n.as_slice(), name))
}

/// Keeps the limits of the colorants in the list, in their order, and drops the others. It allocates nothing.
pub fn keep(limits: &mut LimitList, names: &NameList)
    ensures { limits.new
        ≡ filter (λ l. list_any (λ n. bytes_eq n l.name) names.now) limits.old }
{
    limits.retain(|limit| is_named(limit.name.as_slice(), names))
}
