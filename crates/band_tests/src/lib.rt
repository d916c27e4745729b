//! The tests of bands, pieces, cells, boards and the shared table, and of pieces made by workers and alone, apart from the
//! crates that they try.
#![tactic(auto)]

#[cfg(test)]
mod board;
#[cfg(test)]
mod cells;
#[cfg(test)]
mod expected;
#[cfg(test)]
mod left;
#[cfg(test)]
mod made;
#[cfg(test)]
mod needs;
#[cfg(test)]
mod table;
#[cfg(test)]
mod tables;
