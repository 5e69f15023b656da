// Field 4, Dim_1 to Dim_3: N is the largest J with Dim_1 to Dim_J all found.
ghost use Rattle.std.specs.Prelude.{◌≡◌};
ghost use Rattle.keyword.specs.Viewing.{value_bytes};
ghost use Rattle.description.specs.Answers.{measured_outcome};
ghost use Rattle.description.specs.Parts.{fields_of, dim_read, dims_after_none};

use super::DIM_LIMIT;
use super::ranges::number_up_to;
use keyword::Block;
use keyword::lookup::look_up;
use scan::{Error, Span};

// One to three Dims.
#[derive(Clone, Copy)]
pub enum Dims {
    One(u32),
    Two(u32, u32),
    Three(u32, u32, u32),
}

// One Dim, if it is found: 18 at 4.
fn dim_of(file: &[u8], value: Option<Span>) -> Result<Option<u32>, Error>
    ensures { result ≡ dim_read (value_bytes file.now value) }
{
    let Some(span) = value else {
        return Ok(None);
    };
    let n = number_up_to(scan::part(file, span), 4, DIM_LIMIT)?;
    Ok(Some(n))
}

// From Dim_1 on, as it was found. With no Dim_1, N is 1 and Dim_1 is 0. Errors: 18 at 4; 19 where Dim_1 to Dim_4 are all found.
pub fn dims_of(file: &[u8], b: Block, first: Option<Span>) -> Result<Dims, Error>
    ensures { measured_outcome result ≡ dims_after_none (fields_of file.now b) (value_bytes file.now first) }
{
    let Some(dim1) = dim_of(file, first)? else {
        return Ok(Dims::One(0));
    };
    let Some(dim2) = dim_of(file, look_up(file, b, b"Dim_2"))? else {
        return Ok(Dims::One(dim1));
    };
    let Some(dim3) = dim_of(file, look_up(file, b, b"Dim_3"))? else {
        return Ok(Dims::Two(dim1, dim2));
    };
    match look_up(file, b, b"Dim_4") {
        None => Ok(Dims::Three(dim1, dim2, dim3)),
        Some(_) => Err(Error {
            code: 19,
            position: 0,
        }),
    }
}
