use crate::traps::Traps;
use page_model::page::Page;

/// What became of a page so far.
#[derive(Drop)]
pub(crate) enum Stage {
    // No page was accepted; or a worker is trapping it, under the slot's lock.
    Empty,
    Waits(Page),
    Made(Traps),
}
