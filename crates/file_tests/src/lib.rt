//! The tests of `outside` and of `pgm_plates`. They stand apart, so that neither crate is proved twice for its tests.
#![tactic(auto)]

#[cfg(test)]
mod bounds;
#[cfg(test)]
mod fixtures;
#[cfg(test)]
mod pages_read;
#[cfg(test)]
mod planes_read;
#[cfg(test)]
mod plates_read;
#[cfg(test)]
mod plates_written;
#[cfg(test)]
mod racks;
#[cfg(test)]
mod real_files;
#[cfg(test)]
mod rows_read;
#[cfg(test)]
mod rows_written;
#[cfg(test)]
mod trays;
