// Looking a key up in the headers of a block.
ghost use Rattle.std.specs.Prelude.{◌≡◌, take};
ghost use Rattle.text.specs.Key.{key_of};
ghost use Rattle.header.specs.Entries.{lookup};
ghost use Rattle.keyword.specs.Trace.{trace_in, trace_of};
ghost use Rattle.keyword.specs.Viewing.{header_entries, general_entry, view_at, value_bytes, Tells, span_in, value_in};

use super::{Block, Origin, Traced};
use header::Header;
use header::lookup::{find_key, value_of};
use reading::keys::is_edf_key;
use scan::Span;

// The bytes up to an offset; all of them where it is past the end.
fn up_to(s: &[u8], end: usize) -> &[u8]
    ensures { result.now ≡ take end s.now }
{
    &s[..end.min(s.len())]
}

// The value of a key in one header.
fn value_in(file: &[u8], h: Header, key: &[u8]) -> Option<Span>
    ensures { Tells file.now result (lookup (key_of key.now) (header_entries file.now h)) }
{
    if file.len() <= h.left {
        return None;
    }
    let body = up_to(file, h.right);
    let t = find_key(body, h.left + 1, key)?;
    Some(value_of(body, t))
}

// The value of a key in the general header, which EDF_ keys are not looked up in.
fn general_value(file: &[u8], b: Block, key: &[u8]) -> Option<Span>
    ensures { Tells file.now result (general_entry (view_at file.now b) key.now) }
{
    if is_edf_key(key) {
        return None;
    }
    value_in(file, b.general?, key)
}

// A key in a block: its value in the own header, then in the general header; and which of them has it.
pub fn trace(file: &[u8], b: Block, key: &[u8]) -> Traced
    ensures { trace_of file.now result ≡ trace_in (view_at file.now b) key.now }
{
    if let Some(p) = value_in(file, b.own, key) {
        return Traced {
            value: Some(p),
            origin: Origin::Own,
        };
    }
    match general_value(file, b, key) {
        Some(p) => Traced {
            value: Some(p),
            origin: Origin::General,
        },
        None => Traced {
            value: None,
            origin: Origin::Default,
        },
    }
}

// The value of a key in a block.
pub fn look_up(file: &[u8], b: Block, key: &[u8]) -> Option<Span>
    ensures result_value { result ≡ span_in (view_at file.now b) key.now }
    ensures result_value_2 { value_bytes file.now result ≡ value_in (view_at file.now b) key.now }
{
    trace(file, b, key).value
}
