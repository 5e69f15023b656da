#![tactic(auto)]

// Rows of elements with an offset added.
pub mod adding;
pub mod blocks;
pub mod rows;
