#![tactic(auto)]

// What a file is written from: a frame, whether it may be written, and its dimensions.

pub mod check;
pub mod dims;

// What to write: the identity, the codes of the data type (1 to 10) and the byte order (1 or 2) as in a description, the number
// of dimensions, the dimensions (those past `n` are not read), and the raster configuration.
// Its fields are numbers, since a caller may give any: `edf::write` answers error 24 for those that are not allowed.
#[derive(Clone, Copy)]
pub struct Frame {
    pub sequence: i64,
    pub instance: u8,
    pub memory: i64,
    pub datatype: u8,
    pub byteorder: u8,
    pub n: u8,
    pub dim1: usize,
    pub dim2: usize,
    pub dim3: usize,
    pub configuration: u32,
}
