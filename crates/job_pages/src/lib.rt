//! A job of many pages: one `showpage` for each page, and for each page the text of a job of its own. `showpage` is
//! named after PostScript's (the PostScript Language Reference, third edition, section 8.2); docs/JOBS.md says what
//! stays in force after it here.
#![tactic(auto)]

pub mod many;
pub mod page;
pub mod run;
pub mod statement_spans;
