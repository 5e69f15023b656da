#![tactic(auto)]

// Decimal numbers as 64-bit floats: a coefficient times a power of ten, rounded once.
pub mod digits;
pub mod power;
pub mod powers;
pub mod scale;

// The largest coefficient, 2^53 (`coefficient_limit`): a 64-bit float holds every whole number up to it.
pub const COEFFICIENT_LIMIT: u64 = 9_007_199_254_740_992;

// The largest power of ten either way (`power_limit`): a 64-bit float holds these powers.
pub const POWER_LIMIT: u64 = 22;
