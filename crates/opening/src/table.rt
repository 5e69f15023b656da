// What opening a file into a lent table is to do. All of its branches are here; the table itself is not.
ghost use Rattle.std.specs.Prelude.{◌≡◌, leb};
ghost use Rattle.blocks.specs.Limits.{file_limit};
ghost use Rattle.blocks.specs.Opening.{opened_into};
ghost use Rattle.opening.specs.Table.{Plans};

use super::Opened;
use super::run::opened;
use blocks::{BLOCK_LIMIT, FILE_LIMIT};
use header::error_at;
use scan::Error;

// Whether a file of so many bytes may be opened.
pub fn within_limit(bytes: usize) -> bool
    ensures { result ≡ leb bytes file_limit }
{
    bytes <= FILE_LIMIT
}

// For a table of n rows.
pub fn planned(file: &[u8], n: usize) -> Result<Opened, Error>
    ensures { Plans (opened_into n file.now) n result }
{
    if !within_limit(file.len()) {
        return Err(error_at(1, 0));
    }
    if n < BLOCK_LIMIT {
        return Err(error_at(2, 0));
    }
    opened(file)
}
