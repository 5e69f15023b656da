// The number that digits stand for, with all numbers above the largest coefficient as one: digits of any length are read, and no sum can
// overflow.
ghost use Rattle.std.specs.Prelude.{◌≡◌, ◌++◌, ◌+◌, ◌≤◌};
ghost use Rattle.text.specs.Number.{natural, digits_from};
ghost use Rattle.scaling.specs.Capped.{cap, capped};
ghost use Rattle.scaling.specs.Limits.{coefficient_limit};

use crate::COEFFICIENT_LIMIT;

// What further digits make of v.
fn further(v: u64, l: &[u8]) -> Option<u64>
    requires { v ≤ coefficient_limit + 1 }
    ensures { result ≡ capped (digits_from v l.now) }
{
    let mut n = v;
    for &b in l {
        if !b.is_ascii_digit() {
            return None;
        }
        n = capped_at(n * 10 + u64::from(b - b'0'));
    }
    Some(n)
}

// n, and one more than the largest coefficient for all that is above it.
#[tactic(auto, unfolding(crate::specs::Capped::cap))]
fn capped_at(n: u64) -> u64
    ensures { result ≡ cap n }
{
    n.min(COEFFICIENT_LIMIT + 1)
}

// The number that digits before and after a point stand for.
pub fn coefficient(whole: &[u8], fraction: &[u8]) -> Option<u64>
    ensures { result ≡ capped (natural (whole.now ++ fraction.now)) }
{
    if whole.is_empty() && fraction.is_empty() {
        return None;
    }
    further(further(0, whole)?, fraction)
}
