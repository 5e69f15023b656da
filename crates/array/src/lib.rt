#![tactic(auto)]

// A block's array, delivered, and one pixel of it.
pub mod deliver;
pub mod pixel;
pub mod read;
