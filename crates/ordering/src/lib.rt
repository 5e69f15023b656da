#![tactic(auto)]

// The pixels of a frame in the order in which its configuration stores them.

pub mod data;
pub mod order;
