#![tactic(auto)]

// Bytes, numbers, identities and words appended to a buffer.

pub mod appender;
pub mod words;
