#![tactic(auto)]

// The keys for blocks: where they stand among a header's statements, and what their values mean.
pub mod entry;
pub mod identity;
pub mod keys;
pub mod numbers;
pub mod values;
pub mod version;
