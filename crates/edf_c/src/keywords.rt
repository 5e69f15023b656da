// The keywords of a block.
ghost use Rattle.std.specs.Prelude.{◌≡◌};
ghost use Rattle.scan.specs.Buffer.{length_written, buffer_after};
ghost use Rattle.scan.specs.Byte.{part_of};
ghost use Rattle.keyword.specs.Keyword.{found, value_found, whole_number_of, text_in};
ghost use Rattle.quantities.specs.Real.{real_in};
ghost use Rattle.scan.specs.Outcome.{mapped};
ghost use Rattle.edf_c.specs.Answers.{code_of, value_after, position_after, with_value};
ghost use Rattle.edf_c.specs.Fields.{span_of};
ghost use Rattle.edf_c.specs.Reals.{unit_and_float, real_numbers};

use crate::answers::{put, put_error, put_written};
use reals::measures;

// Where the value of a keyword of a block stands in the file, by its offset and its length: `edf::find`. The bytes there are the
// value.
#[unsafe(no_mangle)]
pub extern "C" fn edf_find(
    file: &[u8],
    block: usize,
    key: &[u8],
    offset: &mut usize,
    size: &mut usize,
    position: &mut usize,
) -> u8
    ensures value { result ≡ code_of (found file.now block key.now) }
    ensures size_after { span_of offset.new size.new ≡ value_after (found file.now block key.now) (span_of offset.old size.old) }
    ensures position_after { position.new ≡ position_after (found file.now block key.now) position.old }
    ensures key_value { value_found file.now block key.now ≡ with_value (found file.now block key.now) (part_of file.now (span_of offset.new size.new)) }
{
    match edf::find(file, block, key) {
        Ok(p) => {
            *offset = p.offset;
            *size = p.length;
            0
        }
        Err(e) => put_error(e, position),
    }
}

// The value of a keyword of a block as text, at the front of the lent buffer: `edf::text`.
#[unsafe(no_mangle)]
pub extern "C" fn edf_text(
    file: &[u8],
    block: usize,
    key: &[u8],
    out: &mut [u8],
    written: &mut usize,
    position: &mut usize,
) -> u8
    ensures value { result ≡ code_of (length_written (text_in file.now block key.now) out.old) }
    ensures written_after { written.new ≡ value_after (length_written (text_in file.now block key.now) out.old) written.old }
    ensures position_after { position.new ≡ position_after (length_written (text_in file.now block key.now) out.old) position.old }
    ensures out_after { out.new ≡ buffer_after (text_in file.now block key.now) out.old }
{
    let answer = edf::text(file, block, key, out);
    put_written(answer, written, position)
}

// The value of a keyword of a block as a whole number: `edf::whole_number`.
#[unsafe(no_mangle)]
pub extern "C" fn edf_whole_number(
    file: &[u8],
    block: usize,
    key: &[u8],
    value: &mut i64,
    position: &mut usize,
) -> u8
    ensures value { result ≡ code_of (whole_number_of file.now block key.now) }
    ensures value_after { value.new ≡ value_after (whole_number_of file.now block key.now) value.old }
    ensures position_after { position.new ≡ position_after (whole_number_of file.now block key.now) position.old }
{
    put(edf::whole_number(file, block, key), value, position)
}

// The value of a keyword of a block as a real number: `edf::real`. The number of its unit, and its float.
#[unsafe(no_mangle)]
pub extern "C" fn edf_real(
    file: &[u8],
    block: usize,
    key: &[u8],
    unit: &mut u8,
    value: &mut f64,
    position: &mut usize,
) -> u8
    ensures value { result ≡ code_of (real_in file.now block key.now) }
    ensures value_after { unit_and_float unit.new value.new ≡ value_after (mapped real_numbers (real_in file.now block key.now)) (unit_and_float unit.old value.old) }
    ensures position_after { position.new ≡ position_after (real_in file.now block key.now) position.old }
{
    match edf::real(file, block, key) {
        Ok(x) => {
            *unit = measures::unit_of(x);
            *value = measures::float_of(x);
            0
        }
        Err(e) => put_error(e, position),
    }
}
