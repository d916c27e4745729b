use common_errors::common::CommonError;
use plate_rows::error::RereadError;

/// Why a sheet that streams stopped.
#[derive(Clone, Copy, Drop)]
pub enum StreamError {
    /// A plate is not the same any more, or a read of it failed.
    Unread(RereadError),
    /// A call of a rack failed: `Write` with the number of its plate.
    Unwritten(CommonError),
}
