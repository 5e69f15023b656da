// Finding a block by its number.
ghost use Rattle.std.specs.Prelude.{◌&&◌, ◌≡◌, eqb};
ghost use Rattle.keyword.specs.Keyword.{view_of};
ghost use Rattle.keyword.specs.Viewing.{row_view, viewed_outcome};

use super::Block;
use blocks::{FILE_LIMIT, Row};
use header::frame::header_at;
use opening::run::opened;
use scan::Error;

// Whether a block of a kind has the general header too, in a file whose first block has the kind `first`.
fn shares(kind: u8, first: u8) -> bool
    ensures { result ≡ (eqb kind 1 && eqb first 0) }
{
    kind == 1 && first == 0
}

// The block of a row, in a file with this first row. The statements of its header were checked when the file was opened.
pub fn view_row(file: &[u8], first: Row, row: Row) -> Result<Block, Error>
    ensures { viewed_outcome file.now result ≡ row_view file.now first row }
{
    let own = header_at(file, row.start)?;
    let general = if shares(row.kind, first.kind) {
        Some(header_at(file, 0)?)
    } else {
        None
    };
    Ok(Block { row, own, general })
}

// The block with a number, from 0. Errors: 1 for a file over 1,073,741,824 bytes, those of opening, 16 where there is no
// such block.
pub fn view(file: &[u8], block: usize) -> Result<Block, Error>
    ensures { viewed_outcome file.now result ≡ view_of file.now block }
{
    if FILE_LIMIT < file.len() {
        return Err(Error {
            code: 1,
            position: 0,
        });
    }
    let opening = opened(file)?;
    if opening.count <= block {
        return Err(Error {
            code: 16,
            position: 0,
        });
    }
    view_row(file, opening.rows[0], opening.rows[block])
}
