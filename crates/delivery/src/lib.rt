#![tactic(auto)]

// The delivery of an array: its elements in the order of their indices, in the byte order asked for, with the offset added.
pub mod arrays;
pub mod runs;
pub mod tiles;
