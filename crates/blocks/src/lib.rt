#![tactic(auto)]

// A file as blocks.
use scan::Error;

// The bytes of the largest file that is opened.
pub const FILE_LIMIT: usize = 1073741824;

// The most blocks of a file, and the rows of its table.
pub const BLOCK_LIMIT: usize = 256;

// The boundary of headers in kind 2 where no general header gives another.
pub const DEFAULT_BOUNDARY: usize = 512;

// The boundary of headers in kind 1, where any length is allowed.
pub const PLAIN_BOUNDARY: usize = 1;

// A block, as a row of the table that opening fills: its start, the length of its header, the size of its data, and its kind, 0 for
// a general block and 1 for a data block; then its identity, with instance 1 for Psd and 2 for Error. The last three are 0
// for a general block and in files of kind 1.
// Its fields are numbers, since any numbers stand in a row that a caller lends.
#[derive(Clone, Copy)]
pub struct Row {
    pub start: usize,
    pub header: usize,
    pub size: usize,
    pub kind: u8,
    pub sequence: i64,
    pub instance: u8,
    pub memory: i64,
}

// The identity of a data block of kind 2.
#[derive(Clone, Copy)]
pub struct Identity {
    pub sequence: i64,
    pub instance: u8,
    pub memory: i64,
}

// What a header says its block is: its kind, and its identity or zeros.
#[derive(Clone, Copy)]
pub struct Role {
    pub kind: u8,
    pub identity: Identity,
}

// What the first header says of the whole file: its kind, 1 or 2; the boundary of headers; and how many data blocks the
// general header asks for, 0 where there is no general header.
// The kind is a number, as the definitions of `blocks` take it: `next_start`, `counting_in`, `size_value`.
#[derive(Clone, Copy)]
pub struct FileRules {
    pub kind: u8,
    pub boundary: usize,
    pub expected: usize,
}

// A block that was accepted: its row, the offset after it, and the file's rules.
#[derive(Clone, Copy)]
pub struct Accepted {
    pub row: Row,
    pub next: usize,
    pub rules: FileRules,
}
