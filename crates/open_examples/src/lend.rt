// A table of rows: a local array that is lent to `edf::open`. The contract speaks of values alone, so that nothing above this
// function lends rows.
ghost use Rattle.std.specs.Prelude.{◌≡◌, replicate};
ghost use Rattle.blocks.specs.Opening.{opened_into, count_of, table_after};

use blocks::Row;
use scan::Error;

#[derive(Clone, Copy)]
pub struct Held {
    pub rows: [Row; 256],
    pub answer: Result<usize, Error>,
}

// A table of 256 times `row` is made, lent and filled, and handed back with the answer.
pub fn open_held(file: &[u8], row: Row) -> Held
    ensures { (result.answer ≡ count_of (opened_into 256 file.now)) × (result.rows ≡ table_after (opened_into 256 file.now) (replicate 256 row)) }
{
    let mut rows = [row; 256];
    let answer = edf::open(file, &mut rows);
    Held { rows, answer }
}
