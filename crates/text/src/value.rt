// Values: which of the bytes between `=` and `;` they are.
ghost use Rattle.std.specs.Prelude.{◌≡◌, ◌+◌, ◌≤◌, length};
ghost use Rattle.text.specs.Value.{trimmed_end, trimmed, without_opening_quote, without_closing_quote, value_span};

use super::whitespace::{find_visible, is_whitespace};
use scan::Span;

// How many bytes are left without the whitespace at the end.
fn trimmed_end(l: &[u8]) -> usize
    ensures { result ≡ trimmed_end l.now (length l.now) }
{
    l.iter()
        .rposition(|&b| !is_whitespace(b))
        .map_or(0, |last| last + 1)
}

// What is left without the whitespace at both ends.
pub fn trimmed_span(l: &[u8]) -> Span
    ensures { result ≡ trimmed l.now }
{
    match find_visible(l, 0) {
        None => Span {
            offset: l.len(),
            length: 0,
        },
        Some(offset) => Span {
            offset,
            length: trimmed_end(l) - offset,
        },
    }
}

// A span inside the bytes, without the `"` that it may start with.
#[tactic(auto, unfolding(crate::specs::Value::without_opening_quote))]
fn without_opening_quote(l: &[u8], p: Span) -> Span
    requires { p.offset + p.length ≤ length l.now }
    ensures { result ≡ without_opening_quote l.now p }
{
    if p.length > 0 && l[p.offset] == b'"' {
        Span {
            offset: p.offset + 1,
            length: p.length - 1,
        }
    } else {
        p
    }
}

// A span inside the bytes, without the `"` that it may end with.
#[tactic(auto, unfolding(crate::specs::Value::without_closing_quote))]
fn without_closing_quote(l: &[u8], p: Span) -> Span
    requires { p.offset + p.length ≤ length l.now }
    ensures { result ≡ without_closing_quote l.now p }
{
    if p.length > 0 && l[p.offset + p.length - 1] == b'"' {
        Span {
            length: p.length - 1,
            ..p
        }
    } else {
        p
    }
}

// Where the value stands in the bytes between `=` and `;`: trimmed, then without its quotes.
pub fn value_span(l: &[u8]) -> Span
    ensures { result ≡ value_span l.now }
{
    without_closing_quote(l, without_opening_quote(l, trimmed_span(l)))
}
