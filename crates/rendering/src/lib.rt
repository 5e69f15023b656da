#![tactic(auto)]

// The text of a header, line by line.

pub mod filling;
pub mod lines;
