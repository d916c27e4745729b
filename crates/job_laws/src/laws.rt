//! Laws of the definitions: each is the contract of a function that does nothing.

ghost use Rattle.std.specs.Prelude.{◌≡◌, ◌++◌, ◌∷◌, ℕ, List, Ok, Err, Some, All, true, false, length, slice_get};
ghost use Rattle.ps_tokens.specs.declared.faults.JobFault.{JobFault};
ghost use Rattle.ps_tokens.specs.declared.object.Object.{Object};
ghost use Rattle.job_reader.specs.declared.job.Job.{Job};
ghost use Rattle.job_reader.specs.declared.operators.Operator.TheVariants.{ShowPage};
ghost use Rattle.job_reader.specs.declared.state.State.{State};
ghost use Rattle.job_reader.specs.Calls.{Statement, statements_of};
ghost use Rattle.job_reader.specs.InForce.{NoneShows, after_all, is_by};
ghost use Rattle.job_reader.specs.Jobs.{job_of, read_from};
ghost use Rattle.job_reader.specs.Starts.{nothing_read};
ghost use Rattle.job_laws.specs.Jobs.{IsJobOf, EndJob, IsSpelledBy, IsFaultOfBytes};
ghost use Rattle.job_laws.specs.Faults.{IsFaultOf};
ghost use Rattle.job_laws.specs.Paths.{empties_path, since_emptied, path_in_force};
ghost use Rattle.job_laws.specs.Zones.{is_settrapzone, zone_after, zones_among, zones_in_force};

/// After statements without a fault the path is the one drawn since the last `newpath` or `settrapzone`.
pub fn path_is_of_the_statements_since()
    ensures { (objects : List Object) (earlier : List Statement) (now : State)
        → after_all objects nothing_read earlier ≡ Ok now
        → now.path ≡ path_in_force objects earlier }
{}

/// After statements without a fault there is a zone for each `settrapzone`, made of the path, the parameters and the
/// limits in force there.
pub fn zones_are_those_in_force()
    ensures { (objects : List Object) (earlier : List Statement) (now : State)
        → after_all objects nothing_read earlier ≡ Ok now
        → now.zones ≡ zones_in_force objects earlier }
{}

/// How statements are divided for the path and the zones: the path is drawn by the statements after the last one that
/// empties it, or by all if none does; and each `settrapzone` makes one zone, of what stands before it, whose number is
/// that of the earlier ones.
pub fn statements_are_cut_where_it_is_said()
    ensures last { (before later : List Statement) (last : Statement)
        → is_by empties_path last.call.operator ≡ true
        → All (λ (s : Statement). is_by empties_path s.call.operator ≡ false) later
        → since_emptied (before ++ last ∷ later) ≡ later }
    ensures no_last { (earlier : List Statement)
        → All (λ (s : Statement). is_by empties_path s.call.operator ≡ false) earlier
        → since_emptied earlier ≡ earlier }
    ensures each { (objects : List Object) (before later : List Statement) (s : Statement)
        → is_by is_settrapzone s.call.operator ≡ true
        → slice_get (zones_in_force objects (before ++ s ∷ later)) (zones_among before)
        ≡ Some (zone_after objects before) }
    ensures counted { (objects : List Object) (earlier : List Statement)
        → length (zones_in_force objects earlier) ≡ zones_among earlier }
{}

/// A job that is read has what is in force at its first `showpage`.
pub fn job_is_of_what_is_in_force()
    ensures { (objects : List Object) (len : ℕ) (earlier later : List Statement) (show : Statement)
        (job : Job)
        → statements_of objects ≡ earlier ++ show ∷ later → show.call.operator ≡ Some ShowPage
        → NoneShows earlier → read_from objects len nothing_read (statements_of objects) ≡ Ok job
        → IsJobOf objects earlier job }
{}

/// Statements give a job exactly if they end one: it has what is in force at their first `showpage`, up to which no
/// statement has a fault by what is in force there.
pub fn job_is_read_where_statements_end_it()
    ensures ends { (objects : List Object) (len : ℕ) (statements : List Statement) (job : Job)
        → read_from objects len nothing_read statements ≡ Ok job → EndJob objects statements job }
    ensures read { (objects : List Object) (len : ℕ) (statements : List Statement) (job : Job)
        → EndJob objects statements job → read_from objects len nothing_read statements ≡ Ok job }
{}

/// Statements have a fault exactly if it is the one of a statement by what is in force there, and no earlier statement
/// has one; or if none has one and none is `showpage`.
pub fn fault_is_the_first_by_what_is_in_force()
    ensures stands { (objects : List Object) (len : ℕ) (statements : List Statement)
        (fault : JobFault)
        → read_from objects len nothing_read statements ≡ Err fault
        → IsFaultOf objects len statements fault }
    ensures reported { (objects : List Object) (len : ℕ) (statements : List Statement)
        (fault : JobFault)
        → IsFaultOf objects len statements fault
        → read_from objects len nothing_read statements ≡ Err fault }
{}

/// A job is that of bytes exactly if they encode it.
pub fn job_of_bytes_is_spelled()
    ensures spelled { (bytes : List ℕ) (job : Job) → job_of bytes ≡ Ok job → IsSpelledBy bytes job }
    ensures read { (bytes : List ℕ) (job : Job) → IsSpelledBy bytes job → job_of bytes ≡ Ok job }
{}

/// A fault is that of bytes exactly if it is that of their number, or else the first of the tokens, or else of the
/// objects, or else of the statements.
pub fn fault_of_bytes_stands()
    ensures stands { (bytes : List ℕ) (fault : JobFault) → job_of bytes ≡ Err fault
        → IsFaultOfBytes bytes fault }
    ensures reported { (bytes : List ℕ) (fault : JobFault) → IsFaultOfBytes bytes fault
        → job_of bytes ≡ Err fault }
{}
