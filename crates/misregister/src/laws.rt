// Laws over the definitions: each function does nothing, and its contract is the law.

ghost use Rattle.std.specs.Prelude.{◌≡◌, ◌+◌, ◌≤◌, ℕ};
ghost use Rattle.misregister.specs.Risk.{risk};

use crate::sheet::Sheet;

/// The number of samples at risk does not fall as the radius of the shift grows, and is 0 at radius 0.
pub fn radius_law(sheet: &Sheet)
    ensures grows { (radius : ℕ) → risk sheet.now radius ≤ risk sheet.now (radius + 1) }
    ensures at_rest { risk sheet.now 0 ≡ 0 }
{
    let _sheet = sheet;
}
