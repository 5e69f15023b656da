// Statements of a header's body. The slice is the file up to the header's `}`, so that offsets are the file's.
ghost use Rattle.std.specs.Prelude.{◌≡◌, ◌-◌, ◌≤◌, length};
ghost use Rattle.std.specs.Iterator.{at_most};
ghost use Rattle.text.specs.Key.{key_of};
ghost use Rattle.header.specs.Checks.{separator};
ghost use Rattle.header.specs.Entry.{key};
ghost use Rattle.header.specs.Statements.{statement_at};
ghost use Rattle.header.specs.Walks.{Steps};

use super::search::find_where;
use super::{Malformed, Statement};
use text::whitespace::find_visible;

// Whether a byte is `=` or `;`.
fn is_separator(b: u8) -> bool
    ensures { result ≡ separator b }
{
    b == b'=' || b == b';'
}

// The statement that starts at `at`, or none where only whitespace is left. Each byte is looked at once, up to the
// statement's `;`.
pub fn statement_at(s: &[u8], at: usize) -> Result<Option<Statement>, Malformed>
    ensures { result ≡ statement_at s.now at }
{
    let Some(first) = find_visible(s, at) else {
        return Ok(None);
    };
    let equals = find_where(s, first, is_separator).ok_or(Malformed)?;
    if s[equals] != b'=' || equals == first {
        return Err(Malformed);
    }
    let end = scan::find(s, b';', equals + 1).ok_or(Malformed)?;
    Ok(Some(Statement {
        first: at,
        equals,
        end,
    }))
}

// The bytes of a statement's key, as a part of the same slice.
pub fn key_bytes(s: &[u8], t: Statement) -> &[u8]
    requires { (t.first ≤ t.equals) × (t.equals ≤ length s.now) }
    ensures { key_of result.now ≡ key s.now t }
{
    &s[t.first..t.equals]
}

// A walk over the statements from an offset on. What is malformed ends it.
#[derive(Drop)]
pub struct Statements<'a> {
    pub s: &'a [u8],
    pub at: usize,
}

impl<'a> Statements<'a> {
    pub fn new(s: &'a [u8], at: usize) -> Self
        ensures bytes { result.s.now ≡ s.now }
        ensures place { result.at ≡ at }
    {
        Statements { s, at }
    }
}

impl Iterator for Statements<'_> {
    type Item = Result<Statement, Malformed>;

    ghost next_gives = { λ x r y. Steps x.s.now x.at r y.s.now y.at };

    ghost remaining = { λ x. at_most (length x.s.now - x.at) };

    fn next(&mut self) -> Option<Result<Statement, Malformed>> {
        let next = statement_at(self.s, self.at).transpose()?;
        self.at = match next {
            Ok(t) => t.end + 1,
            Err(_) => self.s.len(),
        };
        Some(next)
    }
}
