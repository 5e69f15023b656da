// The array of a block of a file, into a lent buffer, and one pixel of it.
ghost use Rattle.std.specs.Prelude.{◌≡◌, ◌+◌, ◌≤◌, length};
ghost use Rattle.scan.specs.Buffer.{length_written, buffer_after};
ghost use Rattle.keyword.specs.Viewing.{view_at};
ghost use Rattle.description.specs.Valid.{ValidArray};
ghost use Rattle.array.specs.Delivery.{data_of, array_in, pixel_in};
ghost use Rattle.array.specs.Reading.{delivered_in, sampled_in};

use super::deliver::{array_length, deliver_array, is_order};
use super::pixel::{is_index, pixel_of};
use description::Description;
use description::describe::describe_block;
use keyword::Block;
use keyword::view::view;
use raster::Pixel;
use scan::{Error, Span};
use text::buffer::failure;

// The data of a block.
pub fn data_of(file: &[u8], b: Block) -> &[u8]
    requires { b.row.start + b.row.header + b.row.size ≤ length file.now }
    ensures { result.now ≡ data_of file.now (view_at file.now b) }
{
    scan::part(
        file,
        Span {
            offset: b.row.start + b.row.header,
            length: b.row.size,
        },
    )
}

// The array described by `d`, from its block's data, at the front of `out`. Errors 24, then 22.
fn deliver_described(src: &[u8], d: Description, asked: u8, out: &mut [u8]) -> Result<usize, Error>
    requires { ValidArray d (length src.now) }
    ensures result_value { result ≡ length_written (delivered_in d src.now asked) out.old }
    ensures out_after { out.new ≡ buffer_after (delivered_in d src.now asked) out.old }
{
    if !is_order(asked) {
        return failure(24);
    }
    let n = array_length(src, d);
    if out.len() < n {
        return failure(22);
    }
    deliver_array(src, d, asked, out);
    Ok(n)
}

// The array of the block with a number, from 0, in a byte order, at the front of `out`. Errors, in which `out` is untouched:
// those of describing; then 24 where `asked` is no order's code; then 22 where `out` is too small.
pub fn read_array(file: &[u8], block: usize, asked: u8, out: &mut [u8]) -> Result<usize, Error>
    ensures result_value { result ≡ length_written (array_in file.now block asked) out.old }
    ensures out_after { out.new ≡ buffer_after (array_in file.now block asked) out.old }
{
    let b = view(file, block)?;
    let d = describe_block(file, b)?;
    deliver_described(data_of(file, b), d, asked, out)
}

// The pixel at an index of the array described by `d`, from its block's data. Error 23.
fn sample_described(
    src: &[u8],
    d: Description,
    i1: usize,
    i2: usize,
    i3: usize,
) -> Result<Pixel, Error>
    requires { ValidArray d (length src.now) }
    ensures { result ≡ sampled_in d src.now i1 i2 i3 }
{
    if !is_index(d, i1, i2, i3) {
        return Err(Error {
            code: 23,
            position: 0,
        });
    }
    Ok(pixel_of(src, d, i1, i2, i3))
}

// The pixel at an index of the array of the block with a number, from 0. Errors: those of describing; then 23 where the index
// is outside.
pub fn read_pixel(
    file: &[u8],
    block: usize,
    i1: usize,
    i2: usize,
    i3: usize,
) -> Result<Pixel, Error>
    ensures { result ≡ pixel_in file.now block i1 i2 i3 }
{
    let b = view(file, block)?;
    let d = describe_block(file, b)?;
    sample_described(data_of(file, b), d, i1, i2, i3)
}
