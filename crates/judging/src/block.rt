// One block: its header, the checks of its statements, the rules on its keys, its place in the file.
ghost use Rattle.std.specs.Prelude.{◌≡◌, ◌+◌, leb};
ghost use Rattle.blocks.specs.Judging.{row_with, judged, block_at};
ghost use Rattle.reading.specs.Entries.{entries_from};

use super::lengths::{header_size, is_multiple, value_of_kind};
use super::role::role_of;
use super::rules::rules_of;
use blocks::{Accepted, FileRules, Role, Row};
use header::check::check_statements;
use header::error_at;
use header::frame::header_at;
use reading::numbers::data_size;
use reading::values::HeaderSize;
use scan::Error;

// Whether a block ends inside the file. No sum is made that could be too large.
fn fits(start: usize, header: usize, size: usize, end: usize) -> bool
    ensures { result ≡ leb (start + header + size) end }
{
    start <= end && header <= end - start && size <= end - start - header
}

// The row of a block: its place, and what its header says.
fn row_of(start: usize, header: usize, size: usize, role: Role) -> Row
    ensures { result ≡ row_with start header size role }
{
    Row {
        start,
        header,
        size,
        kind: role.kind,
        sequence: role.identity.sequence,
        instance: role.identity.instance,
        memory: role.identity.memory,
    }
}

// The block by what its header says. The slice is the file up to the header's `}`, `end` the file's length.
#[tactic(auto, unfolding(blocks::specs::Judging::judged, blocks::specs::Judging::length_allowed))]
fn judged(
    s: &[u8],
    from: usize,
    rules: FileRules,
    first: bool,
    end: usize,
    start: usize,
    header: usize,
) -> Result<Accepted, Error>
    ensures { result ≡ judged rules first end start header (entries_from s.now from) }
{
    let role = role_of(s, from, rules, first).ok_or(error_at(9, start))?;
    let size = data_size(s, from, rules.kind).ok_or(error_at(9, start))?;
    let allowed = match header_size(s, from, rules.kind, header) {
        HeaderSize::Invalid => return Err(error_at(9, start)),
        HeaderSize::Other => false,
        HeaderSize::Kept => is_multiple(header, rules.boundary),
    };
    if value_of_kind(s, from, rules.kind, b"edf_binaryfilename").is_some() {
        return Err(error_at(10, start));
    }
    if !allowed {
        return Err(error_at(11, start));
    }
    if !fits(start, header, size, end) {
        return Err(error_at(12, start));
    }
    Ok(Accepted {
        row: row_of(start, header, size, role),
        next: start + header + size,
        rules,
    })
}

// The block that starts at `start`, in a file with rules; `first`: it is the file's first, and gives them.
pub fn block_at(file: &[u8], rules: FileRules, first: bool, start: usize) -> Result<Accepted, Error>
    ensures { result ≡ block_at file.now rules first start }
{
    let h = header_at(file, start)?;
    let s = &file[..h.right];
    let from = h.left + 1;
    check_statements(s, from, start)?;
    let rules = if first {
        rules_of(s, from).ok_or(error_at(9, start))?
    } else {
        rules
    };
    judged(s, from, rules, first, file.len(), start, h.length)
}
