// The power of ten that an exponent and the digits after a point leave.
ghost use Rattle.std.specs.Prelude.{◌≡◌, pos, ◌-ℤ◌};
ghost use Rattle.scaling.specs.Answers.{power_option};
ghost use Rattle.scaling.specs.Capped.{bounded};

use crate::POWER_LIMIT;
use text::signed::{self, Parts};

// exponent - places, where a float holds that power of ten.
#[tactic(auto, unfolding(crate::specs::Capped::bounded))]
pub fn resulting(exponent: i64, places: usize) -> Option<Parts>
    ensures { power_option result ≡ bounded (exponent -ℤ pos places) }
{
    let power = exponent.checked_sub_unsigned(places as u64)?;
    (power.unsigned_abs() <= POWER_LIMIT).then_some(signed::apart(power))
}
