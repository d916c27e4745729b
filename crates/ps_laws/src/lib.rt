//! Laws of a job's tokens and objects: what the definitions of ps_tokens mean, in terms of the job language.
#![tactic(auto)]

pub mod laws;
