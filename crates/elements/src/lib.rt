#![tactic(auto)]

// Rows of elements that are only moved, at any width and stride, in either byte order.
pub mod rows;
pub mod runs;
