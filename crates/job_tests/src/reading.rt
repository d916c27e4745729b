ghost use Rattle.std.specs.Prelude.{◌≤◌, length, IfOk};
ghost use Rattle.ps_tokens.specs.Dictionaries.{AreObjects};
ghost use Rattle.ps_tokens.specs.Limits.{longest_job};

use ps_tokens::faults::JobError;
use ps_tokens::object::ObjectList;
use ps_tokens::{objects, tokens};
use std::alloc::Global;

/// The objects that bytes write out.
pub fn read(alloc: Global, bytes: &[u8]) -> Result<ObjectList, JobError>
    requires { length bytes.now ≤ longest_job }
    ensures { IfOk result (λ objects. AreObjects objects) }
{
    let found = tokens(alloc, bytes)?;
    objects(alloc, bytes, &found)
}
