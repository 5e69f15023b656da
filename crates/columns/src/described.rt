// The columns of an array: the text of each field, and straight after it the letter of its origin.
ghost use Rattle.std.specs.Prelude.{[], ◌∷◌, ◌-◌, ◌≤◌, ◌<◌, ◌^◌, ℕ, length, get_or};
ghost use Rattle.text.specs.Decimal.{decimal};
ghost use Rattle.origins.specs.Letter.{letter_of};
ghost use Rattle.raster.specs.Types.{type_of, order_words};
ghost use Rattle.append.specs.Append.{HasRoom, AppendedWithin};
ghost use Rattle.columns.specs.Columns.{number, after, dims_text, marked, words_columns, numbers_columns, array_columns, Answered};
ghost use Rattle.columns.specs.Most.{letter_most, type_column, order_column, words_most, dims_column, marked_number, numbers_most, array_most};

use crate::row::number_after;
use append::appender::Appender;
use description::Description;
use keyword::Origin;
use origins::letters::letter_of;

fn append_letter(origin: Origin, out: &mut Appender<'_>)
    requires { HasRoom letter_most out.old }
    ensures { AppendedWithin letter_most (letter_of origin ∷ []) out.old out.new }
{
    out.append(&[letter_of(origin)]);
}

// ---- Type and order

fn type_column(datatype: u8, origin: Origin, out: &mut Appender<'_>)
    requires le_datatype { (1 ≤ datatype) × (datatype ≤ 10) }
    requires room { HasRoom type_column out.old }
    ensures { AppendedWithin type_column (32 ∷ marked (type_of datatype).word origin) out.old out.new }
{
    out.append(b" ");
    out.append_type(datatype);
    append_letter(origin, out);
}

fn order_column(byteorder: u8, origin: Origin, out: &mut Appender<'_>)
    requires le_byteorder { (1 ≤ byteorder) × (byteorder ≤ 2) }
    requires room { HasRoom order_column out.old }
    ensures { AppendedWithin order_column (32 ∷ marked (get_or order_words (byteorder - 1) []) origin) out.old out.new }
{
    out.append(b" ");
    out.append_order(byteorder);
    append_letter(origin, out);
}

fn words_columns(d: Description, out: &mut Appender<'_>)
    requires answered { Answered d }
    requires room { HasRoom words_most out.old }
    ensures { AppendedWithin words_most (after 32 (words_columns d)) out.old out.new }
{
    type_column(d.datatype, d.origins.datatype, out);
    order_column(d.byteorder, d.origins.byteorder, out);
}

// ---- Dims

// One to three dimensions, without a letter.
fn dims_column(dims: &[usize], out: &mut Appender<'_>)
    requires some { (1 ≤ length dims.now) × (length dims.now ≤ 3) }
    requires small { (i : ℕ) → i < length dims.now → get_or dims.now i 0 < 2 ^ 63 }
    requires room { HasRoom dims_column out.old }
    ensures { AppendedWithin dims_column (32 ∷ dims_text dims.now) out.old out.new }
{
    number_after(b' ', dims[0], out);
    for dim in &dims[1..] {
        number_after(b'x', *dim, out);
    }
}

// ---- Configuration, orientation and value offset

fn marked_number(n: u32, origin: Origin, out: &mut Appender<'_>)
    requires { HasRoom marked_number out.old }
    ensures { AppendedWithin marked_number (32 ∷ marked (number n) origin) out.old out.new }
{
    number_after(b' ', n as usize, out);
    append_letter(origin, out);
}

fn offset_column(n: i64, origin: Origin, out: &mut Appender<'_>)
    requires { HasRoom marked_number out.old }
    ensures { AppendedWithin marked_number (32 ∷ marked (decimal n) origin) out.old out.new }
{
    out.append(b" ");
    out.append_decimal(n);
    append_letter(origin, out);
}

fn numbers_columns(d: Description, out: &mut Appender<'_>)
    requires { HasRoom numbers_most out.old }
    ensures { AppendedWithin numbers_most (after 32 (numbers_columns d)) out.old out.new }
{
    marked_number(d.configuration, d.origins.configuration, out);
    marked_number(d.orientation, d.origins.orientation, out);
    offset_column(d.offset, d.origins.offset, out);
}

// ---- All

pub fn array_columns(d: Description, out: &mut Appender<'_>)
    requires answered { Answered d }
    requires room { HasRoom array_most out.old }
    ensures { AppendedWithin array_most (after 32 (array_columns d)) out.old out.new }
{
    words_columns(d, out);
    dims_column(&[d.dim1, d.dim2, d.dim3][..d.n as usize], out);
    append_letter(d.origins.dims, out);
    numbers_columns(d, out);
}
