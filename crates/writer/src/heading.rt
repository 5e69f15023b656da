// The header of a written file.
ghost use Rattle.std.specs.Prelude.{◌≡◌, true, ◌≤◌, length};
ghost use Rattle.text.specs.Text.{quoted_text, text_limit};
ghost use Rattle.append.specs.Append.{HasRoom, AppendedWithin};
ghost use Rattle.frame.specs.File.{frame_allowed};
ghost use Rattle.blocks.specs.Limits.{file_limit};
ghost use Rattle.writer.specs.Front.{leading, front, titled, closed, leading_most, front_most};
ghost use Rattle.rendering.specs.Render.{lines};

use append::appender::{Appender, DECIMAL_MOST};
use append::words::{IDENTITY_MOST, ORDER_MOST, TYPE_MOST};
use frame::Frame;
use rendering::filling::filling;
use rendering::lines::{dim_lines, identity_line, number_line, order_line, type_line};
use text::escape::write_quoted;

// How many bytes the lines before the title take at most, and the front of a header (`specs/Front`). A line has 7 bytes beside its
// key and its value.
const LEADING_MOST: usize = (15 + IDENTITY_MOST + 7)
    + (14 + DECIMAL_MOST + 7)
    + (9 + ORDER_MOST + 7)
    + (8 + TYPE_MOST + 7)
    + 3 * (5 + DECIMAL_MOST + 7)
    + (23 + DECIMAL_MOST + 7);

pub const FRONT_MOST: usize = 3 + LEADING_MOST + 8;

// The lines before the title.
fn put_leading(f: Frame, size: usize, out: &mut Appender<'_>)
    requires f_value { (frame_allowed f ≡ true) × (size ≤ file_limit) }
    requires room { HasRoom leading_most out.old }
    ensures { AppendedWithin leading_most (lines (leading f size)) out.old out.new }
{
    identity_line(f.sequence, f.instance, f.memory, out);
    number_line(b"EDF_BinarySize", size, out);
    order_line(f.byteorder, out);
    type_line(f.datatype, out);
    dim_lines(&[f.dim1, f.dim2, f.dim3][..f.n as usize], out);
    number_line(b"DataRasterConfiguration", f.configuration as usize, out);
}

// The header up to the value of Title.
pub fn put_front(f: Frame, size: usize, out: &mut Appender<'_>)
    requires f_value { (frame_allowed f ≡ true) × (size ≤ file_limit) }
    requires room { HasRoom front_most out.old }
    ensures { AppendedWithin front_most (front f size) out.old out.new }
{
    out.append(b"{\r\n");
    put_leading(f, size, out);
    out.append(b"Title = ");
}

fn put_quoted(title: &[u8], out: &mut Appender<'_>)
    requires short { length title.now ≤ text_limit }
    requires room { HasRoom (length (quoted_text title.now)) out.old }
    ensures { AppendedWithin (length (quoted_text title.now)) (quoted_text title.now) out.old out.new }
{
    let n = write_quoted(title, &mut out.bytes[out.at..]);
    out.at += n;
}

// The whole header, of its front and the title, at the front of a file.
pub fn put_header(first: &[u8], title: &[u8], out: &mut Appender<'_>)
    requires short { length title.now ≤ text_limit }
    requires at_front { out.old.at ≡ 0 }
    requires room { HasRoom (length (closed (titled first.now title.now))) out.old }
    ensures { AppendedWithin (length (closed (titled first.now title.now))) (closed (titled first.now title.now)) out.old out.new }
{
    out.append(first);
    put_quoted(title, out);
    out.append(b" ;\r\n");
    out.append_repeated(b' ', filling(out.at + 4));
    out.append(b"\r\n}\n");
}
