use page_model::parts::Name;
use page_tally::Trapped;

/// The result of a page: its planes after trapping, its counts, and the text of its report.
#[derive(Drop)]
pub(crate) struct Traps {
    pub trapped: Trapped,
    pub report: Name,
}
