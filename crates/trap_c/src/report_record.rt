// The counts of a report, for C.

ghost use Rattle.std.specs.Prelude.{◌≡◌, ◌≤◌, length};
ghost use Rattle.trap_c.specs.ReportRecords.{AreFew, IsReport, is_sized as is_sized_spec, padded};

use page_model::parts::Counts;

/// What a report counts: C's `struct trap_report`. The counts of zones and planes that a page does not have are 0.
#[repr(C)]
#[derive(Drop)]
pub struct ReportRecord {
    pub size: u32,
    pub zones: u32,
    pub planes: u32,
    pub edges: u64,
    pub zone_samples: [u64; 251],
    pub zone_changed: [u64; 251],
    pub plane_changed: [u64; 16],
}

/// The bytes that C's struct has.
const REPORT_SIZE: u32 = 4168;

// Writes counts to the start of an array, and 0 to the rest.
fn put(counts: &[u64], array: &mut [u64])
    requires { length counts.now ≤ length array.old }
    ensures { array.new ≡ padded (length array.old) counts.now }
{
    array[..counts.len()].copy_from_slice(counts);
    array[counts.len()..].fill(0);
}

impl ReportRecord {
    /// Whether the caller's struct has the size of the library's.
    pub fn is_sized(&self) -> bool
        ensures { result ≡ is_sized_spec self.now }
    {
        self.size == REPORT_SIZE
    }

    /// Writes counts to the struct.
    pub fn say(&mut self, counts: &Counts)
        requires { AreFew counts.now }
        ensures { IsReport counts.now self.new }
    {
        self.size = REPORT_SIZE;
        self.zones = counts.zone_samples.len() as u32;
        self.planes = counts.plate_changed.len() as u32;
        self.edges = counts.edges;
        put(counts.zone_samples.as_slice(), &mut self.zone_samples);
        put(counts.zone_changed.as_slice(), &mut self.zone_changed);
        put(counts.plate_changed.as_slice(), &mut self.plane_changed);
    }
}
