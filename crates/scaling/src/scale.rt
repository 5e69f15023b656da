// A whole number times or over a power of ten, rounded once.
ghost use Rattle.std.specs.Prelude.{◌≡◌, false, ◌*◌, ◌^◌, ◌≤◌, nat_abs};
ghost use Rattle.std.specs.Float.{binary64};
ghost use Rattle.std.specs.Float.Ieee.{round};
ghost use Rattle.text.specs.Signed.{int_of};
ghost use Rattle.scaling.specs.Limits.{coefficient_limit, power_limit};
ghost use Rattle.scaling.specs.Scale.{Holds, with_sign, scaled};

use crate::powers;
use text::signed::Parts;

// A whole number that a float holds exactly.
fn exactly(c: u64) -> f64
    requires { c ≤ coefficient_limit }
    ensures { Holds result false c }
{
    c as f64
}

// c * 10^k.
#[tactic(auto, using(crate::proofs::RoundingLaws::mul_whole, crate::proofs::RoundingLaws::ten_pos))]
fn times(c: u64, k: usize) -> f64
    requires { (c ≤ coefficient_limit) × (k ≤ power_limit) }
    ensures { result ≡ round binary64 false (c * 10 ^ k) 1 }
{
    exactly(c) * powers::power_of_ten(k)
}

// c / 10^k.
#[tactic(auto, using(crate::proofs::RoundingLaws::div_whole, crate::proofs::RoundingLaws::ten_pos))]
fn over(c: u64, k: usize) -> f64
    requires { (c ≤ coefficient_limit) × (k ≤ power_limit) }
    ensures { result ≡ round binary64 false c (10 ^ k) }
{
    exactly(c) / powers::power_of_ten(k)
}

// The sign, put on last.
fn with_sign(negative: bool, x: f64) -> f64
    ensures { result ≡ with_sign negative x }
{
    if negative { -x } else { x }
}

// c * 10^power with the sign.
#[tactic(auto, using(crate::proofs::RoundingLaws::over_is), unfolding(crate::specs::Scale::scaled))]
pub fn scaled_by(negative: bool, c: u64, power: Parts) -> f64
    requires { (c ≤ coefficient_limit) × (nat_abs (int_of power) ≤ power_limit) }
    ensures { result ≡ scaled negative c (int_of power) }
{
    let x = match power {
        Parts::Up(k) => times(c, k as usize),
        Parts::Down(k) => over(c, (k + 1) as usize),
    };
    with_sign(negative, x)
}
