//! Tests of the program `trapset`, through its top call.
#![tactic(auto)]

#[cfg(test)]
mod tests;
