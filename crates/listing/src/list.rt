// The listing of a file, into a lent buffer.
ghost use Rattle.std.specs.Prelude.{◌≡◌, ◌*◌, ◌≤◌, length};
ghost use Rattle.scan.specs.Buffer.{length_written, buffer_after};
ghost use Rattle.append.specs.Append.{Appended, HasRoom, AppendedWithin};
ghost use Rattle.blocks.specs.Limits.{block_limit};
ghost use Rattle.listing.specs.Limits.{block_line_most, listing_room};
ghost use Rattle.listing.specs.Input.{input_listing};
ghost use Rattle.listing.specs.Listing.{block_lines, listing, FitsListing};
ghost use Rattle.listing.specs.Rows.{FileRows};

use crate::limits::{INPUT_LIMIT, LISTING_ROOM};
use crate::lines::{block_line, count_line, refused_line};
use append::appender::Appender;
use blocks::{FILE_LIMIT, Row};
use opening::run::opened;
use scan::Error;
use text::buffer;

const TOO_LARGE: Error = Error {
    code: 1,
    position: 0,
};

// A line for each block of an opened file.
fn block_lines(file: &[u8], rows: &[Row], out: &mut Appender<'_>)
    requires file_rows { FileRows file.now rows.now }
    requires room { HasRoom (block_line_most * block_limit) out.old }
    ensures { AppendedWithin (block_line_most * block_limit) (block_lines file.now 0 rows.now) out.old out.new }
{
    for (number, row) in rows.iter().enumerate() {
        block_line(file, rows[0], *row, number, out);
    }
}

// The listing of a file. The file is opened once.
fn append_listing(file: &[u8], out: &mut Appender<'_>)
    requires { HasRoom listing_room out.old }
    ensures { AppendedWithin listing_room (listing file.now) out.old out.new }
{
    if FILE_LIMIT < file.len() {
        return refused_line(TOO_LARGE, out);
    }
    match opened(file) {
        Err(e) => refused_line(e, out),
        Ok(opening) => {
            count_line(opening.count, out);
            block_lines(file, &opening.rows[..opening.count], out);
        }
    }
}

// The same into a buffer, for which LISTING_ROOM bytes are room enough: how many bytes.
pub fn put_listing(file: &[u8], out: &mut [u8]) -> usize
    requires { listing_room ≤ length out.old }
    ensures { Appended (listing file.now) 0 out.old out.new result }
{
    let mut lines = Appender::new(out);
    append_listing(file, &mut lines);
    lines.at
}

// The listing of a file at the front of the lent buffer: how many bytes, at most LISTING_ROOM. Error 22 where it has no room, and then it
// is untouched.
pub fn list(file: &[u8], out: &mut [u8]) -> Result<usize, Error>
    ensures result_value { (result ≡ length_written (Ok (listing file.now)) out.old) × FitsListing file.now }
    ensures out_after { out.new ≡ buffer_after (Ok (listing file.now)) out.old }
{
    let mut text = [0u8; LISTING_ROOM];
    let n = put_listing(file, &mut text);
    buffer::write_bytes(&text[..n], out)
}

// What the program prints for its input.
fn append_input_listing(input: &[u8], out: &mut Appender<'_>)
    requires { HasRoom listing_room out.old }
    ensures { AppendedWithin listing_room (input_listing input.now) out.old out.new }
{
    if INPUT_LIMIT < input.len() {
        refused_line(TOO_LARGE, out);
    } else {
        append_listing(input, out);
    }
}

// The same into a buffer, for which LISTING_ROOM bytes are room enough: how many bytes.
pub fn put_input_listing(input: &[u8], out: &mut [u8]) -> usize
    requires { listing_room ≤ length out.old }
    ensures { Appended (input_listing input.now) 0 out.old out.new result }
{
    let mut lines = Appender::new(out);
    append_input_listing(input, &mut lines);
    lines.at
}
