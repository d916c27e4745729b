ghost use Rattle.std.specs.Prelude.{◌≡◌};
ghost use Rattle.page_model.specs.Within.{slid};

use page_model::bounds::SCALE;
use page_model::parts::TrapParams;

/// Whether a trap between sides of these densities lies on both sides of the edge: the lesser density is at least
/// SlidingTrapLimit of the greater one.
pub fn slid(params: &TrapParams, low: u64, high: u64) -> bool
    ensures { result ≡ slid params.now low high }
{
    u128::from(params.sliding_trap_limit) * u128::from(high) <= u128::from(low) * u128::from(SCALE)
}
