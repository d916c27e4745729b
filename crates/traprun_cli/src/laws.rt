//! Laws of the verdict on a run: each is the contract of a function that does nothing.

ghost use Rattle.traprun_cli.specs.RunVerdicts.{OneRunVerdict, SomeRunVerdict};

/// The bytes of a run's files have at most one verdict.
pub fn one_run_verdict()
    ensures { OneRunVerdict }
{}

/// If the job and all plates are among the files, there is a verdict.
pub fn some_run_verdict()
    ensures { SomeRunVerdict }
{}
