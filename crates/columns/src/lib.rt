#![tactic(auto)]

// Columns of a line, appended to a buffer, each after a separator.
pub mod described;
pub mod row;
