// The units of real numbers.
ghost use Rattle.std.specs.Prelude.{◌≡◌};
ghost use Rattle.reals.specs.Measure.{measured_in, measure_named, unit_of, float_of};

use super::{Measure, Real};

// The unit that a name stands for. Three tests and no `match` on byte strings: the proof of one leaves a case open that has no name.
#[tactic(auto, unfolding(crate::specs::Measure::measure_named))]
pub fn by_name(name: &[u8]) -> Option<Measure>
    ensures { result ≡ measure_named name.now }
{
    if scan::equal(name, b"m") {
        Some(Measure::Metres)
    } else if scan::equal(name, b"deg") {
        Some(Measure::Degrees)
    } else if scan::equal(name, b"rad") {
        Some(Measure::Radians)
    } else {
        None
    }
}

// A float in a unit.
pub fn measured_in(measure: Measure, x: f64) -> Real
    ensures { result ≡ measured_in measure x }
{
    match measure {
        Measure::Bare => Real::Number(x),
        Measure::Metres => Real::Metres(x),
        Measure::Degrees => Real::Degrees(x),
        Measure::Radians => Real::Radians(x),
    }
}

// The number of a real number's unit: 0 for a bare number, 1 for metres, 2 for degrees, 3 for radians.
pub fn unit_of(r: Real) -> u8
    ensures { result ≡ unit_of r }
{
    match r {
        Real::Number(_) => 0,
        Real::Metres(_) => 1,
        Real::Degrees(_) => 2,
        Real::Radians(_) => 3,
    }
}

// Its float.
pub fn float_of(r: Real) -> f64
    ensures { result ≡ float_of r }
{
    match r {
        Real::Number(x) | Real::Metres(x) | Real::Degrees(x) | Real::Radians(x) => x,
    }
}
