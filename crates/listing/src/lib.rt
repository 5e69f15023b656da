#![tactic(auto)]

// What the lister prints of a file.
pub mod limits;
pub mod lines;
pub mod list;
