// What is read of a keyword of a block: where its value stands, and the value as a whole number or as text. Errors 1 to 15
// are those of opening; 16: no such block or keyword.
ghost use Rattle.std.specs.Prelude.{◌≡◌};
ghost use Rattle.scan.specs.Buffer.{length_written, buffer_after};
ghost use Rattle.keyword.specs.Answers.{located_bytes};
ghost use Rattle.keyword.specs.Keyword.{found, value_found, whole_number_of, text_in};

use super::lookup::look_up;
use super::view::view;
use scan::{Error, Span};

// Where the value of a keyword stands.
pub fn find(file: &[u8], block: usize, key: &[u8]) -> Result<Span, Error>
    ensures result_value { result ≡ found file.now block key.now }
    ensures result_value_2 { located_bytes file.now result ≡ value_found file.now block key.now }
{
    let b = view(file, block)?;
    look_up(file, b, key).ok_or(Error {
        code: 16,
        position: 0,
    })
}

// The value of a keyword as a whole number. 18: it is none.
pub fn whole_number(file: &[u8], block: usize, key: &[u8]) -> Result<i64, Error>
    ensures { result ≡ whole_number_of file.now block key.now }
{
    let span = find(file, block, key)?;
    text::number::whole_number(scan::part(file, span)).ok_or(Error {
        code: 18,
        position: 0,
    })
}

// The value of a keyword as text, at the front of the buffer. 25: text too long. 22: the buffer is too small.
pub fn read_text(file: &[u8], block: usize, key: &[u8], out: &mut [u8]) -> Result<usize, Error>
    ensures result_value { result ≡ length_written (text_in file.now block key.now) out.old }
    ensures out_after { out.new ≡ buffer_after (text_in file.now block key.now) out.old }
{
    let span = find(file, block, key)?;
    text::escape::write_text(scan::part(file, span), out)
}
