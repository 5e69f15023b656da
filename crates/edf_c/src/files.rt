// The blocks of a file, its listing and its parts.
ghost use Rattle.std.specs.Prelude.{◌≡◌, ◌/◌, length};
ghost use Rattle.scan.specs.Buffer.{length_written, buffer_after};
ghost use Rattle.scan.specs.Byte.{part_of};
ghost use Rattle.blocks.specs.Opening.{opened_into, count_of};
ghost use Rattle.listing.specs.Listing.{listing, FitsListing};
ghost use Rattle.records.specs.Table.{numbers_after};
ghost use Rattle.edf_c.specs.Answers.{code_of, value_after, position_after};
ghost use Rattle.edf_c.specs.Fields.{span_of};
ghost use Rattle.edf_c.specs.Opening.{OpensNumbers};

use crate::answers::{put_error, put_written};
use records::numbers::ROW;
use scan::Span;

// Opens a file into a lent table, as `edf::open` does. The table is lent as numbers, seven a row, of which the file's blocks take
// the first; the others stay.
#[unsafe(no_mangle)]
pub extern "C" fn edf_open(
    file: &[u8],
    rows: &mut [u64],
    count: &mut usize,
    position: &mut usize,
) -> u8
    ensures value { result ≡ code_of (count_of (opened_into (length rows.old / 7) file.now)) }
    ensures count_after { count.new ≡ value_after (count_of (opened_into (length rows.old / 7) file.now)) count.old }
    ensures position_after { position.new ≡ position_after (count_of (opened_into (length rows.old / 7) file.now)) position.old }
    ensures rows_after { rows.new ≡ numbers_after (opened_into (length rows.old / 7) file.now) rows.old }
    ensures opens_numbers { OpensNumbers file.now rows.old result count.new position.new rows.new }
{
    match opening::table::planned(file, rows.len() / ROW) {
        Ok(opened) => {
            records::table::put_rows(rows, &opened.rows[..opened.count]);
            *count = opened.count;
            0
        }
        Err(e) => put_error(e, position),
    }
}

// What the lister prints of a file, at the front of the lent buffer: `edf::list`.
#[unsafe(no_mangle)]
pub extern "C" fn edf_list(
    file: &[u8],
    out: &mut [u8],
    written: &mut usize,
    position: &mut usize,
) -> u8
    ensures value { (result ≡ code_of (length_written (Ok (listing file.now)) out.old)) × FitsListing file.now }
    ensures written_after { written.new ≡ value_after (length_written (Ok (listing file.now)) out.old) written.old }
    ensures position_after { position.new ≡ position_after (length_written (Ok (listing file.now)) out.old) position.old }
    ensures out_after { out.new ≡ buffer_after (Ok (listing file.now)) out.old }
{
    let answer = edf::list(file, out);
    put_written(answer, written, position)
}

// How long the part of the file at a span is: `edf::part`, which starts at the offset. 0 where the span does not lie inside.
#[unsafe(no_mangle)]
pub extern "C" fn edf_part(file: &[u8], offset: usize, size: usize) -> usize
    ensures { result ≡ length (part_of file.now (span_of offset size)) }
{
    let span = Span {
        offset,
        length: size,
    };
    edf::part(file, span).len()
}
