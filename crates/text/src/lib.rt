#![tactic(auto)]

// Text: whitespace, keys, values, whole numbers, escapes.
pub mod buffer;
pub mod decimal;
pub mod escape;
pub mod key;
pub mod number;
pub mod passing;
pub mod signed;
pub mod value;
pub mod whitespace;

// The most characters of a text (`text_limit`).
pub const TEXT_LIMIT: usize = 1023;
