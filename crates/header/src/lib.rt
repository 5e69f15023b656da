#![tactic(auto)]

// A header: its frame, its statements, its keys.
pub mod check;
pub mod frame;
pub mod lookup;
pub mod repeat;
pub mod search;
pub mod statements;

ghost use Rattle.std.specs.Prelude.{◌≡◌};
ghost use Rattle.scan.specs.Outcome.{error_at};

use scan::Error;

// The most bytes of a header (`header_limit`).
pub const HEADER_LIMIT: usize = 65536;

// A header that stands at some offset: the offsets of its `{` and `}`, and its length from the first byte of its start
// pattern to the last of its end pattern.
#[derive(Clone, Copy)]
pub struct Header {
    pub left: usize,
    pub right: usize,
    pub length: usize,
}

// A statement: the offsets of its first byte, its `=` and its `;`.
#[derive(Clone, Copy)]
pub struct Statement {
    pub first: usize,
    pub equals: usize,
    pub end: usize,
}

// What stands where a statement may start, where it is neither a statement nor only whitespace.
#[derive(Clone, Copy)]
pub struct Malformed;

// The error with a code and a position.
pub fn error_at(code: u8, position: usize) -> Error
    ensures { result ≡ error_at code position }
{
    Error { code, position }
}
