//! Tests of the program `presscheck`, through its top call.
#![tactic(auto)]

#[cfg(test)]
mod tests;
