ghost use Rattle.std.specs.Prelude.{◌≡◌, ◌≤◌, ◌∷◌, [], Some, None, cond};
ghost use Rattle.outside.specs.Counts.{one_more, is_listed};
ghost use Rattle.outside.specs.ErrorCases.{Rose, RoseOnce, Asks};

use crate::tray::DeviceError;
use lists::list::List;
use lists::names::Name;
use std::alloc::Global;

// Adds a name to the list of names, and returns whether the list still tells of all calls: it does not once memory ran
// out.
pub(crate) fn note(alloc: Global, names: &mut List<Name>, is_reported: bool, name: &[u8]) -> bool
    ensures { let before = cond is_reported (Some names.old) None in
        let after = cond result (Some names.new) None in
        Asks before after (name.now ∷ []) }
{
    let mut copy: Vec<u8> = Vec::new(alloc);
    match copy.extend_from_slice(name) {
        Ok(()) => is_reported && names.push(List::from_vec(copy)).is_ok(),
        Err(_) => false,
    }
}

// Counts a call, and returns whether it is to fail.
pub(crate) fn is_failing(calls: &mut u64, fails: &[u64]) -> bool
    ensures answer { result ≡ is_listed fails.now calls.old }
    ensures counted { calls.new ≡ one_more calls.old }
{
    let number = *calls;
    *calls = number.saturating_add(1);
    fails.iter().any(|call| *call == number)
}

// Counts a failed call.
pub(crate) fn fault(faults: &mut u64) -> DeviceError
    ensures counted { faults.new ≡ one_more faults.old }
    ensures rose { Rose faults.old faults.new }
    ensures once { RoseOnce faults.old faults.new }
    ensures later { faults.old ≤ faults.new }
{
    *faults = faults.saturating_add(1);
    DeviceError
}
