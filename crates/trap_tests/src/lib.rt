//! Tests of the program `trap`, through its top call.
#![tactic(auto)]

#[cfg(test)]
mod tests;
