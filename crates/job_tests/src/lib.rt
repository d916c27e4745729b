//! The tests of the job language: what its crates answer, by tables of small jobs, with ample memory.
#![tactic(auto)]

#[cfg(test)]
mod details;
#[cfg(test)]
mod jobs;
#[cfg(test)]
mod parameters;
#[cfg(test)]
mod paths;
#[cfg(test)]
mod reading;
#[cfg(test)]
mod spellings;
