//! Tests of the program `trappool`, through its top call.
#![tactic(auto)]

#[cfg(test)]
mod tests;
