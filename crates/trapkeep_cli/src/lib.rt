//! The program trapkeep: inks are drawn back under black, or whites under colour. Its top call, and what each answer
//! means.
#![tactic(auto)]

mod carry;
mod page;
mod reason;
pub mod top;
