// The lines of a listing, appended to a buffer.
ghost use Rattle.std.specs.Prelude.{◌≡◌, ◌++◌, ℕ, ◌+◌, ◌≤◌, ◌<◌, ◌^◌, pos};
ghost use Rattle.text.specs.Decimal.{decimal};
ghost use Rattle.append.specs.Append.{HasRoom, AppendedWithin};
ghost use Rattle.columns.specs.Columns.{after};
ghost use Rattle.columns.specs.Most.{array_most};
ghost use Rattle.blocks.specs.Limits.{file_limit, block_limit};
ghost use Rattle.listing.specs.Limits.{refused_most, row_most, block_line_most, count_line_most, refused_line_most};
ghost use Rattle.listing.specs.Listing.{description_columns, details, row_columns, block_line, refused_line, count_line};
ghost use Rattle.listing.specs.Rows.{IsRow, row_description};

use append::appender::Appender;
use blocks::Row;
use columns::described::array_columns;
use columns::row::{error_columns, identity_column, number_after};
use description::Description;
use description::describe::describe_block;
use keyword::view::view_row;
use scan::Error;

// The description of a row's array, in a file with this first row.
fn describe_row(file: &[u8], first: Row, row: Row) -> Result<Description, Error>
    ensures { result ≡ row_description file.now first row }
{
    let view = view_row(file, first, row)?;
    describe_block(file, view)
}

fn refused_columns(e: Error, out: &mut Appender<'_>)
    requires { (e.position < 2 ^ 63) × HasRoom refused_most out.old }
    ensures { AppendedWithin refused_most (after 32 (description_columns (Err e))) out.old out.new }
{
    out.append(b" refused");
    error_columns(e, out);
}

// What follows the identity of a block.
fn detail_columns(file: &[u8], first: Row, row: Row, out: &mut Appender<'_>)
    requires row { (number : ℕ) × IsRow file.now first row number }
    requires room { HasRoom array_most out.old }
    ensures { AppendedWithin array_most (after 32 (details row (row_description file.now first row))) out.old out.new }
{
    if row.kind != 0 {
        match describe_row(file, first, row) {
            Ok(d) => array_columns(d, out),
            Err(e) => refused_columns(e, out),
        }
    }
}

// The number of a block, where it stands, and its identity.
fn row_columns(number: usize, row: Row, out: &mut Appender<'_>)
    requires number_lt_block_limit { (number < block_limit) × (row.start + row.header + row.size ≤ file_limit) }
    requires room { HasRoom row_most out.old }
    ensures { AppendedWithin row_most (decimal (pos number) ++ after 32 (row_columns row)) out.old out.new }
{
    out.append_natural(number);
    number_after(b' ', row.start, out);
    number_after(b' ', row.header, out);
    number_after(b' ', row.size, out);
    identity_column(row, out);
}

pub fn block_line(file: &[u8], first: Row, row: Row, number: usize, out: &mut Appender<'_>)
    requires row { IsRow file.now first row number }
    requires room { HasRoom block_line_most out.old }
    ensures { AppendedWithin block_line_most (block_line file.now number row) out.old out.new }
{
    row_columns(number, row, out);
    detail_columns(file, first, row, out);
    out.append(b"\n");
}

pub fn refused_line(e: Error, out: &mut Appender<'_>)
    requires { (e.position < 2 ^ 63) × HasRoom refused_line_most out.old }
    ensures { AppendedWithin refused_line_most (refused_line e) out.old out.new }
{
    out.append(b"refused");
    error_columns(e, out);
    out.append(b"\n");
}

pub fn count_line(n: usize, out: &mut Appender<'_>)
    requires { (n ≤ block_limit) × HasRoom count_line_most out.old }
    ensures { AppendedWithin count_line_most (count_line n) out.old out.new }
{
    out.append(b"blocks");
    number_after(b' ', n, out);
    out.append(b"\n");
}
