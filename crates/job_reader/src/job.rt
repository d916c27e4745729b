use page_model::parts::{DetailList, ZoneList};

/// A job: the resolution of its page in pixels per inch, 0 where none was set; its zones, zone 0 first; and the details
/// of the inks, in ascending byte order of their names.
#[derive(Drop)]
pub struct Job {
    pub resolution: u32,
    pub zones: ZoneList,
    pub details: DetailList,
}
