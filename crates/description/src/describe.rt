// The description of a block's array. The fields are checked in 01's order.
ghost use Rattle.std.specs.Prelude.{◌≡◌, ◌*◌, ◌≤◌, length};
ghost use Rattle.scan.specs.Outcome.{refused};
ghost use Rattle.keyword.specs.Viewing.{view_at};
ghost use Rattle.raster.specs.Axis.{configurations};
ghost use Rattle.raster.specs.Types.{type_of};
ghost use Rattle.description.specs.Answers.{dim_list};
ghost use Rattle.description.specs.Describe.{offset_allowed, description_in, description_of};
ghost use Rattle.description.specs.Limits.{dim_limit};
ghost use Rattle.description.specs.Parts.{SmallDims, extents_of, checked_array};

use super::Description;
use super::dimensions::{Dims, dims_of};
use super::numbers::{Numbers, numbers_of};
use super::words::{Words, words_of};
use keyword::Block;
use keyword::view::view;
use origins::Origins;
use origins::search::{fields_of, origins_of};
use raster::types::{Class, width_of};
use scan::Error;

// Dims as a description has them: there are n, and those past n are 1.
#[derive(Clone, Copy)]
pub struct Extents {
    pub n: u8,
    pub dim1: usize,
    pub dim2: usize,
    pub dim3: usize,
}

fn refuse(code: u8) -> Result<Description, Error>
    ensures { result ≡ refused code 0 }
{
    Err(Error { code, position: 0 })
}

fn extents_of(dims: Dims) -> Extents
    ensures { result ≡ extents_of (dim_list dims) }
{
    let (n, dim1, dim2, dim3) = match dims {
        Dims::One(a) => (1, a, 1, 1),
        Dims::Two(a, b) => (2, a, b, 1),
        Dims::Three(a, b, c) => (3, a, b, c),
    };
    Extents {
        n,
        dim1: dim1 as usize,
        dim2: dim2 as usize,
        dim3: dim3 as usize,
    }
}

// How many configurations there are.
#[tactic(auto, unfolding(raster::specs::Axis::configurations))]
fn configuration_count(dims: Dims) -> u32
    ensures { result ≡ configurations (length (dim_list dims)) }
{
    match dims {
        Dims::One(_) => 2,
        Dims::Two(_, _) => 8,
        Dims::Three(_, _, _) => 48,
    }
}

fn byte_count(e: Extents, width: usize) -> usize
    requires { (e.dim1 ≤ dim_limit) × (e.dim2 ≤ dim_limit) × (e.dim3 ≤ dim_limit) × (width ≤ 8) }
    ensures { result ≡ e.dim1 * e.dim2 * e.dim3 * width }
{
    e.dim1 * e.dim2 * e.dim3 * width
}

#[tactic(auto, unfolding(crate::specs::Describe::offset_allowed))]
fn offset_allowed(datatype: u8, offset: i64) -> bool
    ensures { result ≡ offset_allowed (type_of datatype).class offset }
{
    match Class::of(datatype) {
        Class::Unsigned | Class::Signed => true,
        Class::Float => offset == 0,
    }
}

// The description with these fields, in a block with `size` bytes of data: 20 where the array is longer, then 21 for a float
// with an offset.
fn check_array(
    words: Words,
    dims: Dims,
    numbers: Numbers,
    origins: Origins,
    size: usize,
) -> Result<Description, Error>
    requires { SmallDims (dim_list dims) }
    ensures { result ≡ checked_array words (dim_list dims) numbers origins size }
{
    let e = extents_of(dims);
    if size < byte_count(e, width_of(words.datatype)) {
        return refuse(20);
    }
    if !offset_allowed(words.datatype, numbers.offset) {
        return refuse(21);
    }
    Ok(Description {
        datatype: words.datatype,
        byteorder: words.byteorder,
        compression: words.compression,
        n: e.n,
        dim1: e.dim1,
        dim2: e.dim2,
        dim3: e.dim3,
        configuration: numbers.configuration,
        orientation: numbers.orientation,
        offset: numbers.offset,
        origins,
    })
}

// The array of a block: 16 for the general block.
pub fn describe_block(file: &[u8], b: Block) -> Result<Description, Error>
    ensures { result ≡ description_in (view_at file.now b) }
{
    if b.row.kind != 1 {
        return refuse(16);
    }
    let fields = fields_of(file, b);
    let words = words_of(file, fields)?;
    let dims = dims_of(file, b, fields.dims.value)?;
    let numbers = numbers_of(file, fields, configuration_count(dims))?;
    check_array(words, dims, numbers, origins_of(fields), b.row.size)
}

// The array of the block with a number, from 0. Errors: those of opening but 2; 16 where there is no such block or it is the
// general block; 17 to 21.
pub fn describe(file: &[u8], block: usize) -> Result<Description, Error>
    ensures { result ≡ description_of file.now block }
{
    let b = view(file, block)?;
    describe_block(file, b)
}
