// A file of one block, written into a lent buffer.
ghost use Rattle.std.specs.Prelude.{◌≡◌, true, ◌&&◌, List, ◌++◌, ℕ, ◌+◌, ◌*◌, ◌<◌, ◌≤◌, ◌^◌, eqb, leb, length};
ghost use Rattle.scan.specs.Buffer.{over, length_written, buffer_after};
ghost use Rattle.raster.specs.Position.{product};
ghost use Rattle.rendering.specs.Render.{padding};
ghost use Rattle.frame.specs.File.{frame_dims, frame_type, frame_allowed, file_data, written_file};
ghost use Rattle.blocks.specs.Limits.{file_limit};
ghost use Rattle.text.specs.Text.{text_limit};
ghost use Rattle.writer.specs.Front.{titled, closed, front_most};
ghost use Rattle.writer.specs.Parts.{frame_fits, arguments_allowed, size_of, limited, length_of};

use crate::heading::{FRONT_MOST, put_front, put_header};
use append::appender::Appender;
use blocks::FILE_LIMIT;
use frame::Frame;
use frame::check::frame_allowed;
use frame::dims::{array_length, shape_of};
use ordering::data::put_data;
use raster::types::width_of;
use rendering::filling::filling;
use scan::Error;
use text::TEXT_LIMIT;
use text::buffer::failure;
use text::escape::{all_text_bytes, escaped_length};

// ---- The checks

// Whether the pixels are as long as the frame says.
fn pixels_whole(f: Frame, pixels: &[u8]) -> bool
    requires { frame_allowed f ≡ true }
    ensures { result ≡ eqb (length pixels.now) (product (frame_dims f) * (frame_type f).width) }
{
    pixels.len() == array_length(shape_of(f), width_of(f.datatype))
}

fn frame_fits(f: Frame, pixels: &[u8]) -> bool
    ensures { result ≡ frame_fits f pixels.now }
{
    frame_allowed(f) && pixels_whole(f, pixels)
}

// Whether the frame, the pixels' length and the title's bytes are allowed.
fn arguments_allowed(f: Frame, title: &[u8], pixels: &[u8]) -> bool
    ensures { result ≡ arguments_allowed f title.now pixels.now }
{
    frame_fits(f, pixels) && all_text_bytes(title)
}

// Whether data of a size and the title are each in the limit of a file.
fn parts_fit(size: usize, title: &[u8]) -> bool
    ensures { result ≡ (leb size file_limit && leb (length title.now) file_limit) }
{
    size <= FILE_LIMIT && title.len() <= FILE_LIMIT
}

// ---- How long the file is

// The pixels with their filling.
fn data_length(pixels: &[u8]) -> usize
    ensures { result ≡ length pixels.now + padding (length pixels.now) }
{
    pixels.len() + filling(pixels.len())
}

// The data, of arguments that are allowed. Error 24. A part that is over the limit makes a file that is.
// One check after another, each with its error: nested in `else` they read no plainer.
fn data_size(f: Frame, title: &[u8], pixels: &[u8]) -> Result<usize, Error>
    ensures { result ≡ size_of f title.now pixels.now }
{
    if !arguments_allowed(f, title, pixels) {
        return failure(24);
    }
    let size = data_length(pixels);
    if !parts_fit(size, title) {
        return failure(24);
    }
    Ok(size)
}

// The header, of its front and the title.
fn header_length(first: &[u8], title: &[u8]) -> usize
    requires { (length first.now ≤ front_most) × (length title.now ≤ file_limit) }
    ensures value { result ≡ length (closed (titled first.now title.now)) }
    ensures bound { result < 2 ^ 32 }
{
    let end = first.len() + escaped_length(title) + 10;
    end + filling(end)
}

// The whole file, for data of a size. Errors 24, then 25.
fn file_length(first: &[u8], title: &[u8], size: usize) -> Result<usize, Error>
    requires { (length first.now ≤ front_most) × (length title.now ≤ file_limit) × (size ≤ file_limit) }
    ensures { (rest : List ℕ) → size ≡ length rest → result ≡ length_of (limited title.now (closed (titled first.now title.now) ++ rest)) }
{
    let total = header_length(first, title) + size;
    if total > FILE_LIMIT {
        return failure(24);
    }
    if title.len() > TEXT_LIMIT {
        return failure(25);
    }
    Ok(total)
}

// ---- The file

// The header, of its front and the title, and the data.
fn put_file(f: Frame, first: &[u8], title: &[u8], pixels: &[u8], out: &mut [u8])
    requires f_value { (frame_allowed f ≡ true) × (length pixels.now ≡ product (frame_dims f) * (frame_type f).width) }
    requires short { length title.now ≤ text_limit }
    requires room { length (closed (titled first.now title.now) ++ file_data f pixels.now) ≤ length out.old }
    ensures { out.new ≡ over (closed (titled first.now title.now) ++ file_data f pixels.now) out.old }
{
    let mut file = Appender::new(out);
    put_header(first, title, &mut file);
    put_data(f, pixels, &mut file);
}

// The file of a frame, its title and its pixels, in configuration 1 and with the high byte first, at the front of the buffer.
// Errors 24, then 25, then 22. The header's front is made once, for its length and for the file.
pub fn write(frame: Frame, title: &[u8], pixels: &[u8], out: &mut [u8]) -> Result<usize, Error>
    ensures result_value { result ≡ length_written (written_file frame title.now pixels.now) out.old }
    ensures out_after { out.new ≡ buffer_after (written_file frame title.now pixels.now) out.old }
{
    let size = data_size(frame, title, pixels)?;
    let mut bytes = [0u8; FRONT_MOST];
    let mut front = Appender::new(&mut bytes);
    put_front(frame, size, &mut front);
    let n = front.at;
    let first = &bytes[..n];
    let length = file_length(first, title, size)?;
    if length > out.len() {
        return failure(22);
    }
    put_file(frame, first, title, pixels, out);
    Ok(length)
}
