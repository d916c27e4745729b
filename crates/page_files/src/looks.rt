ghost use Rattle.std.specs.Prelude.{◌≡◌, ◌≤◌, length, map};
ghost use Rattle.page_files.specs.Looks.{LooksAt, LooksThrough, Sought};
ghost use Rattle.page_model.specs.Limits.{most_plates};

use lists::list::List;
use outside::tray::Tray;
use std::alloc::Global;
use std::convert::AsStr;

/// What is sought in each of several files, and the errors where it is not found.
pub trait Look {
    /// What is found in a file.
    type Found: Drop;

    /// Why a file is refused.
    type CommonError: Drop;

    ghost sought: { Self → Sought Self.Found Self.CommonError };

    /// Looks into the file `name`, which is file number `number`, from 0.
    fn look<T: Tray>(
        &self,
        alloc: Global,
        tray: &mut T,
        number: u32,
        name: &str,
    ) -> Result<Self::Found, Self::CommonError>
        ensures { LooksAt (sought self.now) number name.now (T.state tray.old)
            (T.state tray.new) result };

    /// The error if there is no memory for what was found.
    fn no_memory(&self) -> Self::CommonError
        ensures { result ≡ (sought self.now).memory };
}

/// Looks into each of these files in order, up to the first that is refused; no file is begun after it. Returns what
/// was found in each.
pub fn look_through<T: Tray, S: AsStr, L: Look>(
    alloc: Global,
    tray: &mut T,
    inputs: &[S],
    look: &L,
) -> Result<List<L::Found>, L::CommonError>
    requires { length inputs.now ≤ most_plates }
    ensures { LooksThrough (L.sought look.now) (map S.text inputs.now) (T.state tray.old)
        (T.state tray.new) result }
{
    let mut all = List::new(alloc);
    for place in 0..inputs.len() {
        match look.look(alloc, tray, place as u32, inputs[place].as_str()) {
            Ok(found) => {
                if all.push(found).is_err() {
                    return Err(look.no_memory());
                }
            }
            Err(error) => return Err(error),
        }
    }
    Ok(all)
}
