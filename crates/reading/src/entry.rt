// The first of a header's entries.
ghost use Rattle.std.specs.Prelude.{◌≡◌, [], MatchOption};
ghost use Rattle.reading.specs.Entries.{entries_from};
ghost use Rattle.reading.specs.FirstEntry.{IsFirstEntry};

use header::lookup::value_bytes;
use header::statements::{key_bytes, statement_at};

// An entry: its key, with its whitespace, and its value, as parts of the file; and where what follows it starts.
#[derive(Clone, Copy)]
pub struct FirstEntry<'a> {
    pub key: &'a [u8],
    pub value: &'a [u8],
    pub next: usize,
}

// The entry of the statement that starts at `from`, if there is one. `s` ends where the body ends.
pub fn first_entry(s: &[u8], from: usize) -> Option<FirstEntry<'_>>
    ensures { MatchOption result (entries_from s.now from ≡ []) (λ e. IsFirstEntry s.now from e.key.now e.value.now e.next) }
{
    let t = statement_at(s, from).ok()??;
    Some(FirstEntry {
        key: key_bytes(s, t),
        value: value_bytes(s, t),
        next: t.end + 1,
    })
}
