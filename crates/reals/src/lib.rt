#![tactic(auto)]

// Real numbers as text: a number with a point, a power of ten and a unit, read as a 64-bit float that is rounded once.
pub mod measures;
pub mod parse;

// The unit of a number; none for a bare number.
#[derive(Clone, Copy)]
pub enum Measure {
    Bare,
    Metres,
    Degrees,
    Radians,
}

// A real number: a bare number, metres, degrees or radians.
#[derive(Clone, Copy)]
pub enum Real {
    Number(f64),
    Metres(f64),
    Degrees(f64),
    Radians(f64),
}
