#![tactic(auto)]

// Rows of elements that stand one after another, and of which the last comes first.
pub mod rows;
