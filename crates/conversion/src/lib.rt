#![tactic(auto)]

// How every element of an array is made, and rows of elements made so.
pub mod conversion;
pub mod rows;
