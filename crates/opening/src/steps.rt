// What comes after so many blocks: the end of the file, one block too many, a block, or an error.
ghost use Rattle.std.specs.Prelude.{◌≡◌};
ghost use Rattle.blocks.specs.Opening.{count_matches};
ghost use Rattle.opening.specs.Core.{step_of};

use blocks::{Accepted, BLOCK_LIMIT, FileRules};
use gaps::start::start_after;
use header::error_at;
use judging::block::block_at;
use scan::Error;

#[tactic(auto, unfolding(blocks::specs::Opening::count_matches))]
fn count_matches(expected: usize, count: usize) -> bool
    ensures { result ≡ count_matches expected count }
{
    expected == 0 || (count != 0 && count - 1 == expected)
}

// The block after `count` others, of which the last ends at `end`; none where the file ends there, which it does not before its
// first block.
#[tactic(auto, unfolding(crate::specs::Core::step_of))]
pub fn next_block(
    file: &[u8],
    count: usize,
    end: usize,
    rules: FileRules,
) -> Result<Option<Accepted>, Error>
    ensures { result ≡ step_of file.now count end rules }
{
    let start = start_after(file, count, rules.kind, end);
    if count != 0 && start == file.len() {
        if count_matches(rules.expected, count) {
            return Ok(None);
        }
        return Err(error_at(15, 0));
    }
    if count == BLOCK_LIMIT {
        return Err(error_at(14, start));
    }
    block_at(file, rules, count == 0, start).map(Some)
}
