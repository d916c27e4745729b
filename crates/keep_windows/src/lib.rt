//! Keepaway on windows of a sheet: what is worked out in a window with its halo is so of the sheet.
#![tactic(auto)]

pub mod laws;
