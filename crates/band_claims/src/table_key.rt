// What the table is given when it is made.
use band_core::layout::Layout;
use page_model::page::Page;
use std::snapshot::Snapshot;

/// The page, as clauses see it, with the layout of its cells in its bands.
#[derive(Drop)]
pub struct TableKey {
    pub page: Snapshot<Page>,
    pub layout: Layout,
}
