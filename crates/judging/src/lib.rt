#![tactic(auto)]

// One block of a file: what its header says, and whether the block is accepted.
pub mod block;
pub mod lengths;
pub mod role;
pub mod rules;
