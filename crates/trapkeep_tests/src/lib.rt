//! Tests of the program `trapkeep`, through its top call.
#![tactic(auto)]

#[cfg(test)]
mod tests;
