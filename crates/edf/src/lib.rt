#![tactic(auto)]

// The public calls. Each takes any bytes and any numbers, and answers what a definition in the layers below gives. Calls on a
// block take the file and the block's number, from 0, and answer as if they opened the file anew: where the file does not
// open, the error is that of opening (1 and 3 to 15), with its position.
ghost use Rattle.std.specs.Prelude.{◌≡◌, length};
ghost use Rattle.std.specs.Int.{w64};
ghost use Rattle.std.proofs.Common.{SFits};
ghost use Rattle.scan.specs.Buffer.{length_written, buffer_after};
ghost use Rattle.scan.specs.Byte.{part_of};
ghost use Rattle.text.specs.Text.{escaped, unescaped};
ghost use Rattle.blocks.specs.Opening.{opened_into, count_of, table_after};
ghost use Rattle.keyword.specs.Answers.{located_bytes};
ghost use Rattle.keyword.specs.Keyword.{found, value_found, whole_number_of, text_in};
ghost use Rattle.quantities.specs.Real.{real_in};
ghost use Rattle.raster.specs.Strided.{Octets};
ghost use Rattle.description.specs.Describe.{description_of};
ghost use Rattle.array.specs.Delivery.{array_in, pixel_in};
ghost use Rattle.stored.specs.Stored.{stored_array, Delivers};
ghost use Rattle.frame.specs.File.{written_file, FitsFile};
ghost use Rattle.listing.specs.Listing.{listing, FitsListing};
ghost use Rattle.edf.specs.Opening.{OpensAs};

use blocks::Row;
use description::Description;
use frame::Frame;
use raster::Pixel;
use reals::Real;
use scan::{Error, Span};
use stored::StoredArray;

// Opens a file into a lent table of at least 256 rows: answers the number of its blocks, and puts the row of each into the table, in
// order. All other rows, and in an error the whole table, stay as they were.
pub fn open(file: &[u8], table: &mut [Row]) -> Result<usize, Error>
    ensures result_value { (result ≡ count_of (opened_into (length table.old) file.now)) × (table.new ≡ table_after (opened_into (length table.old) file.now) table.old) }
    ensures opens_as { OpensAs file.now table.old result table.new }
{
    let opened = opening::table::planned(file, table.len())?;
    let count = opened.count;
    table[..count].copy_from_slice(&opened.rows[..count]);
    Ok(count)
}

// Where the value of a keyword of a block stands in the file; the bytes there are the value. Errors: those of opening; 16 no
// such block or keyword.
pub fn find(file: &[u8], block: usize, key: &[u8]) -> Result<Span, Error>
    ensures result_value { result ≡ found file.now block key.now }
    ensures result_value_2 { located_bytes file.now result ≡ value_found file.now block key.now }
{
    keyword::read::find(file, block, key)
}

// The bytes of a span, as a part of the caller's file; the empty part where the span does not lie inside.
pub fn part(file: &[u8], p: Span) -> &[u8]
    ensures { result.now ≡ part_of file.now p }
{
    scan::part(file, p)
}

// The value of a keyword as a whole number. Errors: those of opening; 16 no such block or keyword; 18 no whole number.
pub fn whole_number(file: &[u8], block: usize, key: &[u8]) -> Result<i64, Error>
    ensures { result ≡ whole_number_of file.now block key.now }
{
    keyword::read::whole_number(file, block, key)
}

// The value of a keyword as a real number: a bare number, metres, degrees or radians, with the 64-bit float nearest to what is written,
// rounded once. Errors: those of opening; 16 no such block or keyword; 18 no real number; 27 its digits or its power of ten are outside
// the bounds, 9,007,199,254,740,992 and -22 to 22. The position of 18 and 27 is 0.
pub fn real(file: &[u8], block: usize, key: &[u8]) -> Result<Real, Error>
    ensures { result ≡ real_in file.now block key.now }
{
    quantities::real(file, block, key)
}

// The value of a keyword as text, at the front of the lent buffer: how many bytes. Errors, in which the buffer is untouched:
// those of opening; 16 no such block or keyword; 25 text too long; 22 buffer too small.
pub fn text(file: &[u8], block: usize, key: &[u8], out: &mut [u8]) -> Result<usize, Error>
    ensures result_value { result ≡ length_written (text_in file.now block key.now) out.old }
    ensures out_after { out.new ≡ buffer_after (text_in file.now block key.now) out.old }
{
    keyword::read::read_text(file, block, key, out)
}

// Text in value form, at the front of the lent buffer: how many bytes. Errors, in which the buffer is untouched: 24 a byte
// that can't stand in text; 25 text too long; 22 buffer too small.
pub fn escape(bytes: &[u8], out: &mut [u8]) -> Result<usize, Error>
    ensures result_value { result ≡ length_written (escaped bytes.now) out.old }
    ensures out_after { out.new ≡ buffer_after (escaped bytes.now) out.old }
{
    text::escape::escape(bytes, out)
}

// The text of bytes that stand between `=` and `;`, at the front of the lent buffer: how many bytes. Errors, in which the
// buffer is untouched: 24 a byte that can't stand there; 25 text too long; 22 buffer too small.
pub fn unescape(value: &[u8], out: &mut [u8]) -> Result<usize, Error>
    ensures result_value { result ≡ length_written (unescaped value.now) out.old }
    ensures out_after { out.new ≡ buffer_after (unescaped value.now) out.old }
{
    text::escape::unescape(value, out)
}

// The description of a block's array, and where each of its fields came from: the block's own header, the general header, or the
// default. Errors: those of opening; 16 no such block, or the general block; 17 unknown word, at
// the field's number 1 to 3; 18 bad number or range, at the field's number 4 to 7; 19 Dim_1 to Dim_4 all found; 20 data
// shorter than the array; 21 nonzero offset on floats. The position of 16 and of 19 to 21 is 0.
pub fn describe(file: &[u8], block: usize) -> Result<Description, Error>
    ensures { result ≡ description_of file.now block }
{
    description::describe::describe(file, block)
}

// The array of a block in a byte order, 1 for high byte first and 2 for low byte first, at the front of the lent buffer: how many
// bytes. Index 1 runs fastest and index 3 slowest; bytes after these stay. Errors, in which the buffer is untouched: those of
// `describe`; 24 no such order; 22 buffer too small.
pub fn read_array(file: &[u8], block: usize, order: u8, out: &mut [u8]) -> Result<usize, Error>
    ensures result_value { result ≡ length_written (array_in file.now block order) out.old }
    ensures out_after { out.new ≡ buffer_after (array_in file.now block order) out.old }
{
    array::read::read_array(file, block, order, out)
}

// The array of a block as it is stored: its description as `describe` gives it, the span of its bytes in the file, and whether these are just the bytes that
// `read_array` gives in a byte order, 1 or 2. Where they are, `part` hands the array back, with nothing copied. Errors: those of
// `describe`; 24 no such order.
pub fn stored_array(file: &[u8], block: usize, order: u8) -> Result<StoredArray, Error>
    ensures result_value { result ≡ stored_array file.now block order }
    ensures delivers { Delivers file.now block order result }
{
    stored::stored_array(file, block, order)
}

// One pixel of a block's array: its value at an index of three numbers, those past the array's dimensions being 0. Errors:
// those of `describe`; 23 index outside. The contract also says that the file holds bytes.
pub fn read_pixel(
    file: &[u8],
    block: usize,
    i1: usize,
    i2: usize,
    i3: usize,
) -> Result<Pixel, Error>
    ensures { (result ≡ pixel_in file.now block i1 i2 i3) × Octets file.now }
{
    array::read::read_pixel(file, block, i1, i2, i3)
}

// Writes a file of one block at the front of the lent buffer: how many bytes. The pixels come in raster configuration 1, with the high
// byte first; the file has them in the frame's configuration and byte order, filled with zero bytes to a multiple of 512. 4,096 bytes
// more than the pixels are enough for every file. Errors, in which the buffer is untouched: 24 a code, memory, dimension or configuration
// that is not allowed, pixels not as long as the frame describes, a byte of the title outside 1 to 127, or a file over 1,073,741,824
// bytes; 25 title too long; 22 buffer too small. The contract also says what the arguments hold: numbers of 64 bits, and bytes.
pub fn write(frame: Frame, title: &[u8], pixels: &[u8], out: &mut [u8]) -> Result<usize, Error>
    ensures result_value { (result ≡ length_written (written_file frame title.now pixels.now) out.old) × (out.new ≡ buffer_after (written_file frame title.now pixels.now) out.old) }
    ensures sfits { SFits w64 frame.sequence × SFits w64 frame.memory × Octets pixels.now × FitsFile frame title.now pixels.now }
{
    writer::file::write(frame, title, pixels, out)
}

// What the lister prints of a file, at the front of the lent buffer: how many bytes. A file that does not open has a listing too, of
// one line. 76,828 bytes are enough for every file; error 22, in which the buffer is untouched: buffer too small.
pub fn list(file: &[u8], out: &mut [u8]) -> Result<usize, Error>
    ensures result_value { (result ≡ length_written (Ok (listing file.now)) out.old) × FitsListing file.now }
    ensures out_after { out.new ≡ buffer_after (Ok (listing file.now)) out.old }
{
    listing::list::list(file, out)
}
