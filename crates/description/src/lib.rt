#![tactic(auto)]

// What a block's header says of its array.
pub mod codes;
pub mod describe;
pub mod dimensions;
pub mod numbers;
pub mod ranges;
pub mod words;

use origins::Origins;

// The most elements along one index (`dim_limit`).
pub const DIM_LIMIT: u32 = 1048576;

// The description of a block's array, with the codes of its words: the data type's number in 01's table, 1 to 10; the byte
// order, 1 for HighByteFirst and 2 for LowByteFirst; the compression, 1 for None. There are `n` dimensions, 1 to 3; those
// past `n` are 1. `origins` says where each field came from.
// The codes are numbers: the definitions `description_of` and `type_of` speak of them, and the same numbers cross to C.
#[derive(Clone, Copy)]
pub struct Description {
    pub datatype: u8,
    pub byteorder: u8,
    pub compression: u8,
    pub n: u8,
    pub dim1: usize,
    pub dim2: usize,
    pub dim3: usize,
    pub configuration: u32,
    pub orientation: u32,
    pub offset: i64,
    pub origins: Origins,
}
