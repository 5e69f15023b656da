// The rules that the first header gives the file. The slice is the file up to the header's `}`, and `from` the first byte of its
// body.
ghost use Rattle.std.specs.Prelude.{◌≡◌};
ghost use Rattle.blocks.specs.Judging.{rules_with, general_rules, rules_of};
ghost use Rattle.reading.specs.Entries.{entries_from};
ghost use Rattle.reading.specs.FirstEntry.{IsFirstEntry};
ghost use Rattle.judging.specs.First.{second_count};

use blocks::{DEFAULT_BOUNDARY, FileRules, PLAIN_BOUNDARY};
use reading::entry::{FirstEntry, first_entry};
use reading::keys::is_edf_key;
use reading::numbers::counting_number;
use reading::values::asked_for;
use reading::version::is_version;
use text::key::same_key;

// The number of data blocks that the entry at `at` asks for, if it is EDF_DataBlocks.
fn second_count(s: &[u8], at: usize) -> Option<usize>
    ensures { result ≡ second_count (entries_from s.now at) }
{
    let second = first_entry(s, at)?;
    if same_key(second.key, b"edf_datablocks") {
        asked_for(second.value)
    } else {
        None
    }
}

// The rules that a general header gives; its first entry is `first`.
fn general_rules(s: &[u8], from: usize, first: FirstEntry) -> Option<FileRules>
    requires { IsFirstEntry s.now from first.key.now first.value.now first.next }
    ensures { result ≡ general_rules (entries_from s.now from) }
{
    if !is_version(first.value) {
        return None;
    }
    let expected = second_count(s, first.next)?;
    let boundary = counting_number(s, from, b"edf_blockboundary", DEFAULT_BOUNDARY, 1)?;
    Some(FileRules {
        kind: 2,
        boundary,
        expected,
    })
}

// The rules of a file without a general header.
fn plain_rules(kind: u8, boundary: usize) -> FileRules
    ensures { result ≡ rules_with kind boundary 0 }
{
    FileRules {
        kind,
        boundary,
        expected: 0,
    }
}

// The rules that the first header gives the file.
pub fn rules_of(s: &[u8], from: usize) -> Option<FileRules>
    ensures { result ≡ rules_of (entries_from s.now from) }
{
    match first_entry(s, from) {
        Some(first) if is_edf_key(first.key) => {
            if same_key(first.key, b"edf_dataformatversion") {
                general_rules(s, from, first)
            } else if same_key(first.key, b"edf_datablockid") {
                Some(plain_rules(2, DEFAULT_BOUNDARY))
            } else {
                None
            }
        }
        _ => Some(plain_rules(1, PLAIN_BOUNDARY)),
    }
}
