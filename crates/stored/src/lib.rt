#![tactic(auto)]

// Where a block's array stands in its file, for callers that read, map or move those bytes themselves.
ghost use Rattle.std.specs.Prelude.{◌≡◌, length};
ghost use Rattle.description.specs.Valid.{ValidArray};
ghost use Rattle.stored.specs.Stored.{as_delivered, stored_array, stored_with, Delivers};

use array::deliver::{array_length, is_order};
use array::read::data_of;
use description::Description;
use description::describe::describe_block;
use keyword::view::view;
use raster::types::width_of;
use scan::{Error, Span};

// A block's array as it is stored: its description, the span of its bytes in the file, and whether these bytes are just those
// that delivery in the order asked for would write.
#[derive(Clone, Copy)]
pub struct StoredArray {
    pub description: Description,
    pub span: Span,
    pub delivered: bool,
}

// Whether an array is stored as it is delivered in the order asked for.
#[tactic(auto, unfolding(crate::specs::Stored::as_delivered))]
fn as_delivered(d: Description, asked: u8) -> bool
    ensures { result ≡ as_delivered d asked }
{
    d.configuration == 1 && d.offset == 0 && (d.byteorder == asked || width_of(d.datatype) == 1)
}

// The array described by `d`, of the data `src` that starts at an offset of the file. Error 24.
fn stored_described(
    src: &[u8],
    offset: usize,
    d: Description,
    asked: u8,
) -> Result<StoredArray, Error>
    requires { ValidArray d (length src.now) }
    ensures { result ≡ stored_with offset d asked }
{
    if !is_order(asked) {
        return Err(Error {
            code: 24,
            position: 0,
        });
    }
    Ok(StoredArray {
        description: d,
        span: Span {
            offset,
            length: array_length(src, d),
        },
        delivered: as_delivered(d, asked),
    })
}

// The stored array of the block with a number, from 0. Errors: those of describing; then 24 where `asked` is no order's code.
pub fn stored_array(file: &[u8], block: usize, asked: u8) -> Result<StoredArray, Error>
    ensures result_value { result ≡ stored_array file.now block asked }
    ensures delivers { Delivers file.now block asked result }
{
    let b = view(file, block)?;
    let d = describe_block(file, b)?;
    stored_described(data_of(file, b), b.row.start + b.row.header, d, asked)
}
