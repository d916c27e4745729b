//! Tests of the program `traprun`, through its top call.
#![tactic(auto)]

#[cfg(test)]
mod tests;
