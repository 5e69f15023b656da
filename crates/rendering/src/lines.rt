// The lines of a header, appended to a buffer.
ghost use Rattle.std.specs.Prelude.{◌≡◌, [], ◌++◌, ◌-◌, ◌≤◌, ◌<◌, ◌^◌, ℕ, ◌+◌, pos, length, get_or};
ghost use Rattle.scan.specs.Byte.{ascii};
ghost use Rattle.text.specs.Decimal as text;
ghost use Rattle.blocks.specs.IdentityText.{identity_text};
ghost use Rattle.raster.specs.Types.{type_of, order_words};
ghost use Rattle.append.specs.Append.{HasRoom, AppendedWithin};
ghost use Rattle.rendering.specs.Most.{line_length, number_line_most, identity_line_most, order_line_most, type_line_most, dim_lines_most};
ghost use Rattle.rendering.specs.Render.{keyword, dim_keywords, line, lines};

use append::appender::Appender;

// A line up to its value.
fn begin_line(key: &[u8], out: &mut Appender<'_>)
    requires { HasRoom (length key.now + 3) out.old }
    ensures { AppendedWithin (length key.now + 3) (key.now ++ ascii " = ") out.old out.new }
{
    out.append(key);
    out.append(b" = ");
}

fn end_line(out: &mut Appender<'_>)
    requires { HasRoom 4 out.old }
    ensures { AppendedWithin 4 (ascii " ;\r\n") out.old out.new }
{
    out.append(b" ;\r\n");
}

pub fn put_line(key: &[u8], value: &[u8], out: &mut Appender<'_>)
    requires { HasRoom (line_length (length key.now) (length value.now)) out.old }
    ensures appended { AppendedWithin (line_length (length key.now) (length value.now)) (line (keyword key.now value.now)) out.old out.new }
    ensures value { out.new.at ≡ out.old.at + line_length (length key.now) (length value.now) }
{
    begin_line(key, out);
    out.append(value);
    end_line(out);
}

// The line of a number.
pub fn number_line(key: &[u8], n: usize, out: &mut Appender<'_>)
    requires { (n < 2 ^ 63) × HasRoom (number_line_most (length key.now)) out.old }
    ensures { AppendedWithin (number_line_most (length key.now)) (line (keyword key.now (text.decimal (pos n)))) out.old out.new }
{
    begin_line(key, out);
    out.append_natural(n);
    end_line(out);
}

pub fn identity_line(sequence: i64, instance: u8, memory: i64, out: &mut Appender<'_>)
    requires { HasRoom identity_line_most out.old }
    ensures { AppendedWithin identity_line_most (line (keyword (ascii "EDF_DataBlockID") (identity_text sequence instance memory))) out.old out.new }
{
    begin_line(b"EDF_DataBlockID", out);
    out.append_identity(sequence, instance, memory);
    end_line(out);
}

pub fn order_line(byteorder: u8, out: &mut Appender<'_>)
    requires le_byteorder { (1 ≤ byteorder) × (byteorder ≤ 2) }
    requires room { HasRoom order_line_most out.old }
    ensures { AppendedWithin order_line_most (line (keyword (ascii "ByteOrder") (get_or order_words (byteorder - 1) []))) out.old out.new }
{
    begin_line(b"ByteOrder", out);
    out.append_order(byteorder);
    end_line(out);
}

pub fn type_line(datatype: u8, out: &mut Appender<'_>)
    requires le_datatype { (1 ≤ datatype) × (datatype ≤ 10) }
    requires room { HasRoom type_line_most out.old }
    ensures { AppendedWithin type_line_most (line (keyword (ascii "DataType") (type_of datatype).word)) out.old out.new }
{
    begin_line(b"DataType", out);
    out.append_type(datatype);
    end_line(out);
}

// The keys of the dimensions.
const DIM_KEYS: [&[u8]; 3] = [b"Dim_1", b"Dim_2", b"Dim_3"];

fn dim_key(i: usize) -> &'static [u8]
    requires { i < 3 }
    ensures { result.now ≡ ascii "Dim_" ++ text.decimal (pos (1 + i)) }
{
    DIM_KEYS[i]
}

// The lines of one to three dimensions.
pub fn dim_lines(dims: &[usize], out: &mut Appender<'_>)
    requires few { length dims.now ≤ 3 }
    requires small { (i : ℕ) → i < length dims.now → get_or dims.now i 0 < 2 ^ 63 }
    requires room { HasRoom dim_lines_most out.old }
    ensures { AppendedWithin dim_lines_most (lines (dim_keywords 1 dims.now)) out.old out.new }
{
    for (i, dim) in dims.iter().enumerate() {
        number_line(dim_key(i), *dim, out);
    }
}
