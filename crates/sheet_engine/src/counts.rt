/// The counts of a sheet so far: for each zone its samples and those of them that change, for each plate its samples
/// that change, and the deciding edges.
#[derive(Drop)]
pub struct SheetCounts {
    pub zone_samples: Vec<u64>,
    pub zone_changed: Vec<u64>,
    pub plate_changed: Vec<u64>,
    pub edges: u64,
}
