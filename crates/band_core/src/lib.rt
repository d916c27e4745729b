//! The values of each piece over the undivided page, how a piece is made from its needs alone, the board of a page, and
//! the laws that hold for events in any order.
#![tactic(auto)]

pub mod board;
pub mod board_laws;
pub mod cell_laws;
pub mod event;
pub mod laws;
pub mod layout;
mod looks;
pub mod need_laws;
pub mod needs;
pub mod packing;
pub mod state;
pub mod values;

pub use crate::event::Event;
pub use crate::state::State;
