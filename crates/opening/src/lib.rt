#![tactic(auto)]

// Opening a file: block by block, the rows in an array of this function.
pub mod identity;
pub mod run;
pub mod steps;
pub mod table;

use blocks::{BLOCK_LIMIT, Row};

// The row that stands where none is placed yet.
pub const BLANK: Row = Row {
    start: 0,
    header: 0,
    size: 0,
    kind: 0,
    sequence: 0,
    instance: 0,
    memory: 0,
};

// A file that was opened: the rows of its blocks are the first `count`.
#[derive(Clone, Copy)]
pub struct Opened {
    pub rows: [Row; BLOCK_LIMIT],
    pub count: usize,
}
