//! The tests of keepaway. They stand apart so that neither draw_back nor keepaway is proved a second time for them.
#![tactic(auto)]

#[cfg(test)]
mod pages;
#[cfg(test)]
mod rows;
