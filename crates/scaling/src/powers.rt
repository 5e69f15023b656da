// The powers of ten that a 64-bit float holds exactly.
ghost use Rattle.std.specs.Prelude.{◌≤◌, ◌^◌, false};
ghost use Rattle.scaling.specs.Limits.{power_limit};
ghost use Rattle.scaling.specs.Scale.{Holds};

const POWERS: [f64; 23] = [
    1e0, 1e1, 1e2, 1e3, 1e4, 1e5, 1e6, 1e7, 1e8, 1e9, 1e10, 1e11, 1e12, 1e13, 1e14, 1e15, 1e16,
    1e17, 1e18, 1e19, 1e20, 1e21, 1e22,
];

// 10^k, exactly.
#[tactic(auto, using(crate::proofs::TableLaws::power_is))]
pub fn power_of_ten(k: usize) -> f64
    requires { k ≤ power_limit }
    ensures { Holds result false (10 ^ k) }
{
    POWERS[k]
}
