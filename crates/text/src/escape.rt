// Text into value form, and text out of a value. The length is measured first, so that the buffer is untouched in every error.
ghost use Rattle.std.specs.Prelude.{◌||◌, ◌≡◌, ◌≤◌, eqb, length};
ghost use Rattle.scan.specs.Buffer.{over, length_written, buffer_after};
ghost use Rattle.text.specs.Escapes as spec;
ghost use Rattle.text.specs.Text.{every, text_byte, value_byte, escaped_body, quoted_text, escaped, text_of, short_text, unescaped};

use super::TEXT_LIMIT;
use crate::passing::all_pass;
use crate::{buffer, value};
use scan::Error;

// ---- Into value form

// Whether a byte may stand in text: 1 to 127.
#[tactic(auto, unfolding(crate::specs::Text::text_byte))]
fn is_text_byte(b: u8) -> bool
    ensures { result ≡ text_byte b }
{
    (1..=127).contains(&b)
}

pub fn all_text_bytes(l: &[u8]) -> bool
    ensures { result ≡ every text_byte l.now }
{
    all_pass(l, is_text_byte)
}

// The letter with which a byte is escaped, if it is.
#[tactic(auto, unfolding(crate::specs::Escapes::letter, crate::specs::Escapes::letters, crate::specs::Escapes::lookup_byte))]
fn letter(b: u8) -> Option<u8>
    ensures { result ≡ spec.letter b }
{
    match b {
        b'\\' => Some(b'\\'),
        b'\n' => Some(b'l'),
        b'\r' => Some(b'r'),
        b'{' => Some(b'('),
        b'}' => Some(b')'),
        b';' => Some(b':'),
        _ => None,
    }
}

// How many bytes the escaped characters of text take: one each, or two where there is a letter.
pub fn escaped_length(text: &[u8]) -> usize
    ensures { result ≡ length (escaped_body text.now) }
{
    let mut n = 0;
    for &b in text {
        match letter(b) {
            Some(_) => n += 2,
            None => n += 1,
        }
    }
    n
}

// Writes the escaped characters between quotes: how many bytes. `o` is a place in `out`, which moves by one or by two.
#[tactic(auto, unfolding(crate::specs::Text::quoted_text))]
pub fn write_quoted(text: &[u8], out: &mut [u8]) -> usize
    requires { length (quoted_text text.now) ≤ length out.old }
    ensures value { result ≡ length (quoted_text text.now) }
    ensures out_after { out.new ≡ over (quoted_text text.now) out.old }
{
    out[0] = b'"';
    let mut o = 1;
    for &b in text {
        match letter(b) {
            Some(c) => {
                out[o] = b'\\';
                out[o + 1] = c;
                o += 2;
            }
            None => {
                out[o] = b;
                o += 1;
            }
        }
    }
    out[o] = b'"';
    o + 1
}

// Text in value form, at the front of the buffer. Errors 24, then 25, then 22.
#[tactic(auto, using(crate::proofs::Escaping::quoted_length, crate::proofs::Escaping::at_most_twice), unfolding(scan::specs::Buffer::length_written, scan::specs::Buffer::buffer_after, crate::specs::Text::escaped, crate::specs::Text::short_text))]
pub fn escape(text: &[u8], out: &mut [u8]) -> Result<usize, Error>
    ensures result_value { result ≡ length_written (escaped text.now) out.old }
    ensures out_after { out.new ≡ buffer_after (escaped text.now) out.old }
{
    if !all_text_bytes(text) {
        return buffer::failure(24);
    }
    if text.len() > TEXT_LIMIT {
        return buffer::failure(25);
    }
    let n = escaped_length(text) + 2;
    if n > out.len() {
        return buffer::failure(22);
    }
    Ok(write_quoted(text, out))
}

// ---- From a value

// Whether a byte may stand between `=` and `;`: 1 to 127, no brace and no `;`. There is no branch, so that the compiler tests many
// bytes at once.
#[tactic(auto, unfolding(crate::specs::Text::value_byte, crate::specs::Text::text_byte))]
fn is_value_byte(b: u8) -> bool
    ensures { result ≡ value_byte b }
{
    is_text_byte(b) & (b != b'{') & (b != b'}') & (b != b';')
}

fn all_value_bytes(l: &[u8]) -> bool
    ensures { result ≡ every value_byte l.now }
{
    all_pass(l, is_value_byte)
}

fn is_line_break(b: u8) -> bool
    ensures { result ≡ (eqb b 10 || eqb b 13) }
{
    matches!(b, b'\n' | b'\r')
}

// What a backslash before a byte gives.
#[tactic(auto, unfolding(crate::specs::Escapes::meaning, crate::specs::Escapes::meanings, crate::specs::Escapes::lookup_byte))]
fn meaning(b: u8) -> u8
    ensures { result ≡ spec.meaning b }
{
    match b {
        b'l' | b'n' => b'\n',
        b'r' => b'\r',
        b's' => b' ',
        b't' => b'\t',
        b'v' => b'\x0b',
        b'f' => b'\x0c',
        b'(' => b'{',
        b')' => b'}',
        b':' => b';',
        _ => b,
    }
}

// How many bytes the text of a value takes. `pending` says that a backslash stands before.
fn text_length(value: &[u8]) -> usize
    ensures { result ≡ length (text_of value.now) }
{
    let mut n = 0;
    let mut pending = false;
    for &b in value {
        if !is_line_break(b) {
            let opens = !pending & (b == b'\\');
            if !opens {
                n += 1;
            }
            pending = opens;
        }
    }
    n
}

fn write_unescaped(value: &[u8], out: &mut [u8])
    requires { length (text_of value.now) ≤ length out.old }
    ensures { out.new ≡ over (text_of value.now) out.old }
{
    let mut o = 0;
    let mut pending = false;
    for &b in value {
        if !is_line_break(b) {
            let opens = !pending & (b == b'\\');
            if !opens {
                out[o] = if pending { meaning(b) } else { b };
                o += 1;
            }
            pending = opens;
        }
    }
}

// The text of a value that is trimmed and unquoted, at the front of the buffer. Errors 25, then 22.
#[tactic(auto, unfolding(scan::specs::Buffer::length_written, scan::specs::Buffer::buffer_after, crate::specs::Text::short_text))]
pub fn write_text(value: &[u8], out: &mut [u8]) -> Result<usize, Error>
    ensures result_value { result ≡ length_written (short_text (text_of value.now)) out.old }
    ensures out_after { out.new ≡ buffer_after (short_text (text_of value.now)) out.old }
{
    let n = text_length(value);
    if n > TEXT_LIMIT {
        return buffer::failure(25);
    }
    if n > out.len() {
        return buffer::failure(22);
    }
    write_unescaped(value, out);
    Ok(n)
}

// The text of the bytes between `=` and `;`, at the front of the buffer. Errors 24, then 25, then 22.
#[tactic(auto, using(crate::proofs::ValueSpans::part_value), unfolding(scan::specs::Buffer::length_written, scan::specs::Buffer::buffer_after, crate::specs::Text::unescaped))]
pub fn unescape(value: &[u8], out: &mut [u8]) -> Result<usize, Error>
    ensures result_value { result ≡ length_written (unescaped value.now) out.old }
    ensures out_after { out.new ≡ buffer_after (unescaped value.now) out.old }
{
    if !all_value_bytes(value) {
        return buffer::failure(24);
    }
    write_text(scan::part(value, value::value_span(value)), out)
}
