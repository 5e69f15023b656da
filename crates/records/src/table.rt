// The rows of an opened file as numbers.
ghost use Rattle.std.specs.Prelude.{◌≡◌, ◌*◌, ◌≤◌, length};
ghost use Rattle.scan.specs.Buffer.{over};
ghost use Rattle.records.specs.Table.{all_numbers};

use crate::numbers::{ROW, row_numbers};
use blocks::Row;

// The rows, at the front of the lent numbers.
pub fn put_rows(numbers: &mut [u64], rows: &[Row])
    requires { 7 * length rows.now ≤ length numbers.old }
    ensures { numbers.new ≡ over (all_numbers rows.now) numbers.old }
{
    for (i, row) in rows.iter().enumerate() {
        numbers[ROW * i..ROW * (i + 1)].copy_from_slice(&row_numbers(*row));
    }
}
