// The loop over the blocks of a file.
ghost use Rattle.opening.specs.Core.{Opens, counted};

use super::identity::repeats;
use super::steps::next_block;
use super::{BLANK, Opened};
use blocks::{BLOCK_LIMIT, FileRules, PLAIN_BOUNDARY, Row};
use header::error_at;
use scan::Error;

// The rules before the first header is read.
const NO_RULES: FileRules = FileRules {
    kind: 1,
    boundary: PLAIN_BOUNDARY,
    expected: 0,
};

// Puts the rows of a file into a table, and answers how many there are. `end` is where the block before ended, 0 before the
// first. With this apart, `opened` is small and becomes a part of its callers, so the rows are not copied on the way to them.
#[inline(never)]
fn placed(file: &[u8], rows: &mut [Row; BLOCK_LIMIT]) -> Result<usize, Error>
    ensures { Opens file.now (counted rows.new result) }
{
    let mut count = 0;
    let mut end = 0;
    let mut rules = NO_RULES;
    while let Some(block) = next_block(file, count, end, rules)? {
        if repeats(&rows[..count], block.row) {
            return Err(error_at(13, block.row.start));
        }
        rows[count] = block.row;
        count += 1;
        end = block.next;
        rules = block.rules;
    }
    Ok(count)
}

// The rows of a file.
pub fn opened(file: &[u8]) -> Result<Opened, Error>
    ensures { Opens file.now result }
{
    let mut opened = Opened {
        rows: [BLANK; BLOCK_LIMIT],
        count: 0,
    };
    opened.count = placed(file, &mut opened.rows)?;
    Ok(opened)
}
