#![tactic(auto)]

// Writing a file of one block.

pub mod file;
pub mod heading;
