#![tactic(auto)]

// A group: sixteen bytes, as elements that stand one after another. It is moved as one element is, all its bytes read before one is
// written.
pub mod orders;
