// All checks of a header's statements, in one walk. The slice is the file up to the header's `}`, so that offsets are the file's.
ghost use Rattle.std.specs.Prelude.{◌≡◌, ◌&&◌, ◌≤◌, ◌<◌, ◌^◌, leb, length};
ghost use Rattle.text.specs.Key.{key_of};
ghost use Rattle.text.specs.Value.{trimmed};
ghost use Rattle.header.specs.Checks.{rules_checked, statements_checked};
ghost use Rattle.header.specs.Repeats.{StillDistinct};
ghost use Rattle.header.specs.Statements.{is_short};

use super::repeat::insert_key;
use super::statements::{Statements, key_bytes};
use super::{Statement, error_at};
use scan::Error;

// Whether a key, here with its whitespace, has at most 64 characters. Its bytes are looked at only if there are more.
#[tactic(auto, using(crate::proofs::KeyLaws::key_shorter))]
fn is_short_key(k: &[u8]) -> bool
    ensures { result ≡ leb (length (key_of k.now)) 64 }
{
    k.len() <= 64 || text::key::key_length(k) <= 64
}

// Whether a value, here before it is trimmed, has at most 2,048 bytes; as above.
#[tactic(auto, using(text::proofs::Trims::trimmed_fits))]
fn is_short_value(v: &[u8]) -> bool
    ensures { result ≡ leb (trimmed v.now).length 2048 }
{
    v.len() <= 2048 || text::value::trimmed_span(v).length <= 2048
}

// Whether `short` holds and the key and the value of a statement are not too long.
#[tactic(auto, unfolding(crate::specs::Statements::is_short, crate::specs::Entries::trimmed_length), using(crate::proofs::Lengths::value_measured))]
fn still_short(s: &[u8], t: Statement, short: bool) -> bool
    requires { (t.first ≤ t.equals) × (t.equals < t.end) × (t.end < length s.now) }
    ensures { result ≡ (short && is_short s.now t) }
{
    short && is_short_key(key_bytes(s, t)) && is_short_value(&s[t.equals + 1..t.end])
}

// Whether `distinct` holds and the key of the statement t is none of those of the statements from `from` up to t. As long as it holds
// the table contains the hashes of these keys, and then that of t's too.
fn still_distinct(
    s: &[u8],
    from: usize,
    t: Statement,
    distinct: bool,
    table: &mut [u64],
    slots: u32,
) -> bool
    requires { (t.first ≤ t.equals) × (t.equals ≤ length s.now) }
    ensures { StillDistinct s.now from slots t distinct table.old table.new result }
{
    distinct && !insert_key(s, from, t.first, key_bytes(s, t), table, slots)
}

// The answer for statements that are well formed: error 7 before error 8.
fn answer(short: bool, distinct: bool, start: usize) -> Result<(), Error>
    ensures { result ≡ rules_checked short distinct start }
{
    if !short {
        Err(error_at(7, start))
    } else if !distinct {
        Err(error_at(8, start))
    } else {
        Ok(())
    }
}

// The checks with a table that is lent, whatever it holds at first.
fn check_with(
    s: &[u8],
    from: usize,
    start: usize,
    table: &mut [u64],
    slots: u32,
) -> Result<(), Error>
    ensures { result ≡ statements_checked s.now from start }
{
    let mut short = true;
    let mut distinct = true;
    for next in Statements::new(s, from) {
        let Ok(t) = next else {
            return Err(error_at(6, start));
        };
        short = still_short(s, t, short);
        distinct = still_distinct(s, from, t, distinct, table, slots);
    }
    answer(short, distinct, start)
}

// The checks with a table of N slots. Probes start at the first `slots` of them: the others are for those that start near the end,
// which do not wrap around.
fn check_with_table<const N: usize>(
    s: &[u8],
    from: usize,
    start: usize,
    slots: u32,
) -> Result<(), Error>
    requires { N < 2 ^ 32 }
    ensures { result ≡ statements_checked s.now from start }
{
    check_with(s, from, start, &mut [0; N], slots)
}

// The statements from `from` on, of the header at `start`: errors 6, 7 and 8, "each check for the whole header before the next".
// A small header does not pay for clearing a large table.
pub fn check_statements(s: &[u8], from: usize, start: usize) -> Result<(), Error>
    ensures { result ≡ statements_checked s.now from start }
{
    if from < s.len() && 4096 < s.len() - from {
        check_with_table::<29184>(s, from, start, 28672)
    } else {
        check_with_table::<2112>(s, from, start, 2048)
    }
}
