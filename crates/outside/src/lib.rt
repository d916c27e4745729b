//! Files and standard output, by two traits, `Tray` and `Rack`, each of them for a disk and for tests in memory.
#![tactic(auto)]

mod ahead;
mod disk_file;
pub mod disk_rack;
pub mod disk_tray;
pub mod distinct_names;
pub mod endless_tray;
mod kept_inputs;
mod mem_calls;
pub mod mem_file;
pub mod mem_rack;
pub mod mem_tray;
pub mod rack;
pub mod reading;
pub mod shelf;
pub mod tray;
pub mod writing;
