#![tactic(auto)]

// Rows of elements at any stride, one element a turn: a loop for each width.
pub mod changes;
pub mod places;
pub mod rows;
