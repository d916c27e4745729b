//! Laws of the definitions: each is the contract of a function that does nothing.

ghost use Rattle.std.specs.Prelude.{◌≡◌, ◌++◌, ℕ, List, Ok, slice_get, true};
ghost use Rattle.ps_tokens.specs.declared.object.Object.{Object};
ghost use Rattle.ps_tokens.specs.Dictionaries.{inside_of};
ghost use Rattle.job_reader.specs.declared.job.Job.{Job};
ghost use Rattle.job_reader.specs.declared.operators.Operator.TheVariants.{SetPageDevice, SetTrapParams};
ghost use Rattle.job_reader.specs.declared.state.State.{State};
ghost use Rattle.job_reader.specs.Calls.{Statement};
ghost use Rattle.job_reader.specs.InForce.{NoneShows, after_all, resolution_in_force, trapping_in_force, details_in_force, params_in_force, limits_in_force, NamesNone, device_keys, params_keys};
ghost use Rattle.job_reader.specs.InRange.{IsJob};
ghost use Rattle.job_reader.specs.Jobs.{job_of, read_from};
ghost use Rattle.job_reader.specs.Operands.{is_one_dict};
ghost use Rattle.job_reader.specs.Starts.{nothing_read};
ghost use Rattle.job_reader.specs.Statements.{state_after};

/// Every job that is read from bytes is in range.
pub fn read_jobs_are_in_range()
    ensures { (bytes : List ℕ) (job : Job) → job_of bytes ≡ Ok job → IsJob job }
{}

/// A job's statements before its first `showpage` may be read in two parts: the second part starts with what the first
/// one left in force, and the answer is the same.
pub fn statements_go_on()
    ensures { (objects : List Object) (len : ℕ) (earlier later : List Statement) (now next : State)
        → NoneShows earlier → after_all objects now earlier ≡ Ok next
        → read_from objects len now (earlier ++ later) ≡ read_from objects len next later }
{}

/// After statements without a fault the page's entries are those of the last earlier `setpagedevice` that names them.
pub fn page_device_is_of_the_last_that_names_it()
    ensures resolution { (objects : List Object) (earlier : List Statement) (now : State)
        → after_all objects nothing_read earlier ≡ Ok now
        → now.resolution ≡ resolution_in_force objects earlier }
    ensures trapping { (objects : List Object) (earlier : List Statement) (now : State)
        → after_all objects nothing_read earlier ≡ Ok now
        → now.trapping ≡ trapping_in_force objects earlier }
    ensures details { (objects : List Object) (earlier : List Statement) (now : State)
        → after_all objects nothing_read earlier ≡ Ok now
        → now.details ≡ details_in_force objects earlier }
{}

/// After statements without a fault each parameter, and the step limits, are those of the last earlier `settrapparams`
/// that names them.
pub fn trap_params_are_of_the_last_that_names_them()
    ensures params { (objects : List Object) (earlier : List Statement) (now : State)
        → after_all objects nothing_read earlier ≡ Ok now
        → now.params ≡ params_in_force objects earlier }
    ensures limits { (objects : List Object) (earlier : List Statement) (now : State)
        → after_all objects nothing_read earlier ≡ Ok now
        → now.limits ≡ limits_in_force objects earlier }
{}

/// A dictionary without any of the keys that its operator knows changes nothing in force; and an empty dictionary has
/// no key at all.
pub fn what_names_nothing_changes_nothing()
    ensures page_device { (objects : List Object) (from place at : ℕ) (now : State)
        → is_one_dict objects from place ≡ true → NamesNone objects from device_keys
        → state_after objects from place at SetPageDevice now ≡ Ok now }
    ensures trap_params { (objects : List Object) (from place at : ℕ) (now : State)
        → is_one_dict objects from place ≡ true → NamesNone objects from params_keys
        → state_after objects from place at SetTrapParams now ≡ Ok now }
    ensures empty { (objects : List Object) (dict : ℕ) (keys : List (List ℕ))
        → inside_of (slice_get objects dict) ≡ 0 → NamesNone objects dict keys }
{}
