#![tactic(auto)]

// Keywords of a block.
pub mod lookup;
pub mod read;
pub mod view;

use blocks::Row;
use header::Header;
use scan::{Error, Span};

// A block as its keywords are looked up: its row, its own header, and the general header where it has that too.
#[derive(Clone, Copy)]
pub struct Block {
    pub row: Row,
    pub own: Header,
    pub general: Option<Header>,
}

// Where the value of a keyword came from: the block's own header, the general header, or, where no header in reach has the keyword, the
// default.
#[derive(Clone, Copy)]
pub enum Origin {
    Own,
    General,
    Default,
}

// A keyword of a block: its value, and where that came from. The origin stands beside the value, not in its `Some`: a keyword
// that no header has has an origin too, the default.
#[derive(Clone, Copy)]
pub struct Traced {
    pub value: Option<Span>,
    pub origin: Origin,
}
