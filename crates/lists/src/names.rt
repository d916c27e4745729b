ghost use Rattle.std.specs.Prelude.{◌≡◌, IfOk};
ghost use Rattle.std.specs.Str.{bytes_eq};

use crate::list::List;
use std::alloc::Global;

/// The error of a function that can only run out of memory.
#[derive(Clone, Copy, Debug, Drop, PartialEq, Eq)]
pub struct OutOfMemory;

/// The bytes of a name or of a text.
pub type Name = List<u8>;

/// Names, each a list of bytes.
pub type NameList = List<Name>;

/// Numbers of calls of a device, counted from 0.
pub type CallList = List<u64>;

/// Copies a name or a text.
pub fn copy_name(alloc: Global, bytes: &[u8]) -> Result<Name, OutOfMemory>
    ensures { IfOk result (λ name. name ≡ bytes.now) }
{
    match Vec::from_slice(alloc, bytes) {
        Ok(items) => Ok(List::from_vec(items)),
        Err(_) => Err(OutOfMemory),
    }
}

/// Whether two names have the same bytes.
pub fn same_name(one: &[u8], two: &[u8]) -> bool
    ensures { result ≡ bytes_eq one.now two.now }
{
    one == two
}
