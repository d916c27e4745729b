//! Tests of the program `trapsheet` through its top call, and of the plates that it reads and writes by rows.
#![tactic(auto)]

#[cfg(test)]
mod rows;
#[cfg(test)]
mod tests;
