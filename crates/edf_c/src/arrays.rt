// The array of a block.
ghost use Rattle.std.specs.Prelude.{◌≡◌};
ghost use Rattle.scan.specs.Buffer.{length_written, buffer_after};
ghost use Rattle.description.specs.Describe.{description_of};
ghost use Rattle.array.specs.Delivery.{array_in, pixel_in};
ghost use Rattle.stored.specs.Stored.{stored_array};
ghost use Rattle.records.specs.Numbers.{description_numbers};
ghost use Rattle.scan.specs.Outcome.{mapped};
ghost use Rattle.edf_c.specs.Answers.{code_of, value_after, position_after};
ghost use Rattle.edf_c.specs.Fields.{span_of};
ghost use Rattle.edf_c.specs.Samples.{sample_of, sample_after};
ghost use Rattle.edf_c.specs.Stored.{flag, stored_of, stored_numbers, DeliveredAt};

use crate::answers::{put, put_error, put_written};
use raster::Pixel;
use records::numbers::{DESCRIPTION, description_numbers};

// The description of a block's array, a number for each field, then one for each field's origin: `edf::describe`.
#[unsafe(no_mangle)]
pub extern "C" fn edf_describe(
    file: &[u8],
    block: usize,
    description: &mut [u64; DESCRIPTION],
    position: &mut usize,
) -> u8
    ensures value { result ≡ code_of (description_of file.now block) }
    ensures description_after { description.new ≡ value_after (mapped description_numbers (description_of file.now block)) description.old }
    ensures position_after { position.new ≡ position_after (description_of file.now block) position.old }
{
    let answer = edf::describe(file, block).map(description_numbers);
    put(answer, description, position)
}

// The array of a block in a byte order, at the front of the lent buffer: `edf::read_array`.
#[unsafe(no_mangle)]
pub extern "C" fn edf_read_array(
    file: &[u8],
    block: usize,
    order: u8,
    out: &mut [u8],
    written: &mut usize,
    position: &mut usize,
) -> u8
    ensures value { result ≡ code_of (length_written (array_in file.now block order) out.old) }
    ensures written_after { written.new ≡ value_after (length_written (array_in file.now block order) out.old) written.old }
    ensures position_after { position.new ≡ position_after (length_written (array_in file.now block order) out.old) position.old }
    ensures out_after { out.new ≡ buffer_after (array_in file.now block order) out.old }
{
    let answer = edf::read_array(file, block, order, out);
    put_written(answer, written, position)
}

// The array of a block as it is stored: `edf::stored_array`. The numbers of its description, its span, and 1 or 0 for
// whether the bytes there are those that `edf_read_array` gives.
#[unsafe(no_mangle)]
pub extern "C" fn edf_stored_array(
    file: &[u8],
    block: usize,
    order: u8,
    description: &mut [u64; DESCRIPTION],
    start: &mut usize,
    size: &mut usize,
    delivered: &mut u8,
    position: &mut usize,
) -> u8
    ensures value { result ≡ code_of (stored_array file.now block order) }
    ensures delivered_after { stored_of description.new (span_of start.new size.new) delivered.new ≡ value_after (mapped stored_numbers (stored_array file.now block order)) (stored_of description.old (span_of start.old size.old) delivered.old) }
    ensures position_after { position.new ≡ position_after (stored_array file.now block order) position.old }
    ensures delivered_at { DeliveredAt file.now block order result (span_of start.new size.new) delivered.new }
{
    match edf::stored_array(file, block, order) {
        Ok(a) => {
            *description = description_numbers(a.description);
            *start = a.span.offset;
            *size = a.span.length;
            *delivered = u8::from(a.delivered);
            0
        }
        Err(e) => put_error(e, position),
    }
}

// One pixel of a block's array: `edf::read_pixel`. Its class, and the number of that class; the other numbers stay.
#[unsafe(no_mangle)]
pub extern "C" fn edf_read_pixel(
    file: &[u8],
    block: usize,
    i1: usize,
    i2: usize,
    i3: usize,
    class: &mut u8,
    unsigned: &mut u64,
    signed: &mut i64,
    float32: &mut f32,
    float64: &mut f64,
    position: &mut usize,
) -> u8
    ensures value { result ≡ code_of (pixel_in file.now block i1 i2 i3) }
    ensures float64_after { sample_of class.new unsigned.new signed.new float32.new float64.new ≡ sample_after (pixel_in file.now block i1 i2 i3) (sample_of class.old unsigned.old signed.old float32.old float64.old) }
    ensures position_after { position.new ≡ position_after (pixel_in file.now block i1 i2 i3) position.old }
{
    match edf::read_pixel(file, block, i1, i2, i3) {
        Ok(Pixel::Unsigned(n)) => {
            *class = 1;
            *unsigned = n;
            0
        }
        Ok(Pixel::Signed(z)) => {
            *class = 2;
            *signed = z;
            0
        }
        Ok(Pixel::Float32(x)) => {
            *class = 3;
            *float32 = x;
            0
        }
        Ok(Pixel::Float64(y)) => {
            *class = 4;
            *float64 = y;
            0
        }
        Err(e) => put_error(e, position),
    }
}
