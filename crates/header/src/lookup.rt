// Looking a key up, and where its value stands.
ghost use Rattle.std.specs.Prelude.{◌≡◌, ◌≤◌, ◌<◌, length};
ghost use Rattle.text.specs.Key.{key_of};
ghost use Rattle.header.specs.Entries.{value, span};
ghost use Rattle.header.specs.Lookup.{first_statement};
ghost use Rattle.header.specs.Statements.{leading_statements};

use super::Statement;
use super::statements::{Statements, key_bytes};
use scan::Span;
use text::key::same_key;
use text::value::value_span;

// The first statement from `from` on whose key is that of `sought`: both without whitespace and folded. `s` ends where the
// body ends.
pub fn find_key(s: &[u8], from: usize, sought: &[u8]) -> Option<Statement>
    ensures { result ≡ first_statement s.now (key_of sought.now) (leading_statements s.now from) }
{
    for next in Statements::new(s, from) {
        let t = next.ok()?;
        if same_key(key_bytes(s, t), sought) {
            return Some(t);
        }
    }
    None
}

// Where the value of a statement stands: between its `=` and its `;`, trimmed and without quotes.
#[tactic(auto, using(crate::proofs::LookupLaws::span_is, crate::proofs::LookupLaws::span_inside))]
pub fn value_of(s: &[u8], t: Statement) -> Span
    requires { (t.equals < t.end) × (t.end ≤ length s.now) }
    ensures { result ≡ span s.now t }
{
    let start = t.equals + 1;
    let p = value_span(&s[start..t.end]);
    Span {
        offset: start + p.offset,
        length: p.length,
    }
}

// The value of a statement, as a part of the same slice.
#[tactic(auto, using(crate::proofs::LookupLaws::span_ends, crate::proofs::LookupLaws::value_part_lem))]
pub fn value_bytes(s: &[u8], t: Statement) -> &[u8]
    requires { (t.equals < t.end) × (t.end ≤ length s.now) }
    ensures { result.now ≡ value s.now t }
{
    let p = value_of(s, t);
    &s[p.offset..p.offset + p.length]
}
