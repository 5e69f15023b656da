#![tactic(auto)]

// Where the blocks of a file start: whitespace is passed over where it may stand.
pub mod kind;
pub mod skip;
pub mod start;
