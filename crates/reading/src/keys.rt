// EDF_ keys, and a search among the statements whose keys count.
ghost use Rattle.std.specs.Prelude.{◌≡◌};
ghost use Rattle.std.specs.Option.{option_copied};
ghost use Rattle.text.specs.Key.{key_of};
ghost use Rattle.header.specs.Entries.{value_in};
ghost use Rattle.header.specs.Lookup.{first_statement};
ghost use Rattle.header.specs.Statements.{leading_statements};
ghost use Rattle.blocks.specs.Counting.{counting, is_edf_key};
ghost use Rattle.reading.specs.Counting.{counting_statements};
ghost use Rattle.reading.specs.Entries.{entries_from};

use header::Statement;
use header::lookup::{find_key, value_bytes};
use header::statements::{Statements, key_bytes};
use text::key::{fold_byte, same_key};
use text::whitespace::find_visible;

// Whether a key starts with `edf_` without its whitespace and folded. At most its first four visible bytes are looked at.
pub fn is_edf_key(k: &[u8]) -> bool
    ensures { result ≡ is_edf_key (key_of k.now) }
{
    let mut at = 0;
    for &letter in b"edf_" {
        let Some(x) = find_visible(k, at) else {
            return false;
        };
        if fold_byte(k[x]) != letter {
            return false;
        }
        at = x + 1;
    }
    true
}

// The first statement from `from` on whose key is that of `sought`, among those before the first key that is no EDF_ key.
// `s` ends where the body ends.
pub fn find_counting(s: &[u8], from: usize, sought: &[u8]) -> Option<Statement>
    ensures { result ≡ first_statement s.now (key_of sought.now) (counting_statements s.now (leading_statements s.now from)) }
{
    for next in Statements::new(s, from) {
        let t = next.ok()?;
        let key = key_bytes(s, t);
        if !is_edf_key(key) {
            return None;
        }
        if same_key(key, sought) {
            return Some(t);
        }
    }
    None
}

// The value of a key, among the statements that count.
pub fn counting_value<'a>(s: &'a [u8], from: usize, key: &[u8]) -> Option<&'a [u8]>
    ensures { option_copied result ≡ value_in (key_of key.now) (counting (entries_from s.now from)) }
{
    let t = find_counting(s, from, key)?;
    Some(value_bytes(s, t))
}

// The value of a key, anywhere in the header.
pub fn any_value<'a>(s: &'a [u8], from: usize, key: &[u8]) -> Option<&'a [u8]>
    ensures { option_copied result ≡ value_in (key_of key.now) (entries_from s.now from) }
{
    let t = find_key(s, from, key)?;
    Some(value_bytes(s, t))
}
