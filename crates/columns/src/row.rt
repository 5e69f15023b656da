// The columns of a row and of an error.
ghost use Rattle.std.specs.Prelude.{◌∷◌, ◌<◌, ◌^◌};
ghost use Rattle.append.specs.Append.{HasRoom, AppendedWithin};
ghost use Rattle.append.specs.Most.{identity_most};
ghost use Rattle.columns.specs.Columns.{number, after, identity_of, error_columns};
ghost use Rattle.columns.specs.Most.{number_column, identity_column, error_most};

use append::appender::Appender;
use blocks::Row;
use scan::Error;

// A number after a separator.
pub fn number_after(separator: u8, n: usize, out: &mut Appender<'_>)
    requires { (n < 2 ^ 63) × HasRoom number_column out.old }
    ensures { AppendedWithin number_column (separator ∷ number n) out.old out.new }
{
    out.append(&[separator]);
    out.append_natural(n);
}

// The identity of a block, without a separator.
fn append_name(row: Row, out: &mut Appender<'_>)
    requires { HasRoom identity_most out.old }
    ensures { AppendedWithin identity_most (identity_of row) out.old out.new }
{
    if row.kind == 0 {
        out.append(b"general");
    } else if row.instance == 0 {
        out.append(b"-");
    } else {
        out.append_identity(row.sequence, row.instance, row.memory);
    }
}

pub fn identity_column(row: Row, out: &mut Appender<'_>)
    requires { HasRoom identity_column out.old }
    ensures { AppendedWithin identity_column (32 ∷ identity_of row) out.old out.new }
{
    out.append(b" ");
    append_name(row, out);
}

// The code and the position of an error.
pub fn error_columns(e: Error, out: &mut Appender<'_>)
    requires { (e.position < 2 ^ 63) × HasRoom error_most out.old }
    ensures { AppendedWithin error_most (after 32 (error_columns e)) out.old out.new }
{
    number_after(b' ', e.code as usize, out);
    number_after(b' ', e.position, out);
}
