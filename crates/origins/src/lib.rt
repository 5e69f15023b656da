#![tactic(auto)]

// The fields of a block's array as they are found, and where each came from.
pub mod letters;
pub mod search;

use keyword::Origin;

// One of something for each of the fields; that of the Dims is Dim_1's.
#[derive(Clone, Copy)]
pub struct Fields<T> {
    pub datatype: T,
    pub byteorder: T,
    pub compression: T,
    pub dims: T,
    pub configuration: T,
    pub orientation: T,
    pub offset: T,
}

// Where each field came from.
pub type Origins = Fields<Origin>;
