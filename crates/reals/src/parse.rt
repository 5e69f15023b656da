// A real number from its text: cut from the outside in, at the first `_`, then at the first `e`, then after the sign, then at the first
// point.
ghost use Rattle.std.specs.Prelude.{◌≡◌, option_map};
ghost use Rattle.scan.specs.Search.{first_from, is};
ghost use Rattle.reals.specs.Cut.{before, after};
ghost use Rattle.reals.specs.Numerals.{with_digits, without_sign, with_sign, with_exponent};
ghost use Rattle.reals.specs.Real.{judged, real_of};

use super::{Measure, Real};
use crate::measures;
use scaling::{COEFFICIENT_LIMIT, digits, power, scale};
use scan::Error;
use text::number;

// The text has not the form.
const BAD_FORM: Error = Error {
    code: 18,
    position: 0,
};

// The number is outside the bounds.
const OUTSIDE: Error = Error {
    code: 27,
    position: 0,
};

// What stands before the first byte `b`, and what stands after it; all of the text, and nothing, where it does not stand there.
#[tactic(auto, using(crate::proofs::CutLaws::found_inside))]
fn cut(l: &[u8], b: u8) -> (&[u8], Option<&[u8]>)
    ensures front { result.0.now ≡ before (first_from (is b) l.now 0) l.now }
    ensures back { option_map (λ t. t.now) result.1 ≡ after (first_from (is b) l.now 0) l.now }
{
    match scan::find(l, b, 0) {
        Some(i) => (&l[..i], Some(&l[i + 1..])),
        None => (l, None),
    }
}

// The real number that a text stands for. Errors: 18 it has not the form; 27 it is outside the bounds.
#[tactic(auto, unfolding(crate::specs::Real::real_of, crate::specs::Real::judged, crate::specs::Numerals::numeral_of))]
pub fn parse(l: &[u8]) -> Result<Real, Error>
    ensures { result ≡ real_of l.now }
{
    let (number, unit) = cut(l, b'_');
    let measure = match unit {
        Some(name) => measures::by_name(name).ok_or(BAD_FORM)?,
        None => Measure::Bare,
    };
    with_exponent(measure, number)
}

// The text before the unit.
#[tactic(auto, unfolding(crate::specs::Real::judged, crate::specs::Numerals::with_exponent))]
fn with_exponent(m: Measure, l: &[u8]) -> Result<Real, Error>
    ensures { result ≡ judged (with_exponent m l.now) }
{
    let (number, text) = cut(l, b'e');
    let exponent = match text {
        Some(text) => number::whole_number(text).ok_or(BAD_FORM)?,
        None => 0,
    };
    with_sign(m, exponent, number)
}

// The text before the exponent.
#[tactic(auto, unfolding(crate::specs::Numerals::with_sign))]
fn with_sign(m: Measure, exponent: i64, l: &[u8]) -> Result<Real, Error>
    ensures { result ≡ judged (with_sign m exponent l.now) }
{
    match l {
        [b'-', size @ ..] => without_sign(m, true, exponent, size),
        [b'+', size @ ..] => without_sign(m, false, exponent, size),
        _ => without_sign(m, false, exponent, l),
    }
}

// The text between sign and exponent.
#[tactic(auto, unfolding(crate::specs::Numerals::without_sign))]
fn without_sign(m: Measure, negative: bool, exponent: i64, l: &[u8]) -> Result<Real, Error>
    ensures { result ≡ judged (without_sign m negative exponent l.now) }
{
    let (whole, fraction) = cut(l, b'.');
    with_digits(m, negative, exponent, whole, fraction.unwrap_or(&[]))
}

// The digits before and after the point.
#[tactic(auto, unfolding(crate::specs::Real::judged, crate::specs::Numerals::with_digits, scaling::specs::Capped::cap, scaling::specs::Capped::bounded))]
fn with_digits(
    m: Measure,
    negative: bool,
    exponent: i64,
    whole: &[u8],
    fraction: &[u8],
) -> Result<Real, Error>
    ensures { result ≡ judged (with_digits m negative exponent whole.now fraction.now) }
{
    let c = digits::coefficient(whole, fraction).ok_or(BAD_FORM)?;
    if c > COEFFICIENT_LIMIT {
        return Err(OUTSIDE);
    }
    let power = power::resulting(exponent, fraction.len()).ok_or(OUTSIDE)?;
    Ok(measures::measured_in(m, scale::scaled_by(negative, c, power)))
}
