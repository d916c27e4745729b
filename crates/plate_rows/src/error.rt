/// Why a second reading of plates stopped, with the number of the plate, from 0.
#[derive(Clone, Copy, Drop, PartialEq, Eq)]
pub enum RereadError {
    /// The plate is not the same any more: it has another header, or a fault now.
    Changed(u32),
    /// A read of the plate failed.
    Unread(u32),
}
