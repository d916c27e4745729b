//! The tests of lists, and of what goes in and out as text: words that are read by hand, the words of `trap`, and the
//! line and the status of each error. They stand apart so that no crate is proved a second time for them.
#![tactic(auto)]

#[cfg(test)]
mod error_lines;
#[cfg(test)]
mod hand_words;
#[cfg(test)]
mod list_items;
#[cfg(test)]
mod words;
