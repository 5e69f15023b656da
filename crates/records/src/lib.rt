#![tactic(auto)]

// Records as numbers of 64 bits, one for each field.
pub mod numbers;
pub mod table;
