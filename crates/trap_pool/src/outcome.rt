use common_errors::common::CommonError;
use page_tally::Trapped;

/// What became of a line.
#[derive(Drop)]
pub enum Outcome {
    /// Its page is trapped.
    Done(Trapped),
    /// Its page was refused, or memory ran out.
    Refused(CommonError),
    /// Its page, together with the pages that were accepted before it, has more samples than a list may have.
    TooLarge,
}
