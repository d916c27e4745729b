//! The tests of the engine: random pages on one thread against a search of the whole page, and by any workers against
//! one thread. They stand apart so that strip_engine and trap_engine are not proved a second time for them.
#![tactic(auto)]

#[cfg(test)]
mod grid;
#[cfg(test)]
mod memory;
#[cfg(test)]
mod pages;
#[cfg(test)]
mod random_pages;
#[cfg(test)]
mod reads;
#[cfg(test)]
mod slow_edges;
#[cfg(test)]
mod slow_marks;
#[cfg(test)]
mod slow_traps;
#[cfg(test)]
mod workers;
#[cfg(test)]
mod zones;
