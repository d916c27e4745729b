ghost use Rattle.std.specs.Prelude.{◌≡◌, None};
ghost use Rattle.common_errors.specs.Telling.{Refuses};

use band_claims::Closed;
use common_errors::common::CommonError;
use common_errors::telling::refuse;
use outside::rack::Rack;

/// How the top call ended.
#[derive(Drop)]
pub struct Ended {
    /// The status that the program exits with.
    pub status: u8,
    /// The closed table at which the workers trapped the page. It is there exactly at status 0.
    pub receipt: Option<Closed>,
}

// Prints the line of an error, which ends the call without a receipt.
pub(crate) fn end_with_error<R: Rack>(rack: &mut R, error: &CommonError) -> Ended
    ensures line { Refuses error.now (R.state rack.old) (R.state rack.new) result.status }
    ensures receipt { result.receipt ≡ None }
{
    Ended {
        status: refuse(rack, error),
        receipt: None,
    }
}
