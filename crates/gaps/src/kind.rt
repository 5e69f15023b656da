// Whether a first header makes a file one of kind 2. `s` is the file up to the header's `}`, and `from` the first byte of its body.
ghost use Rattle.std.specs.Prelude.{◌≡◌, is_some};
ghost use Rattle.header.specs.Statements.{statements_from};
ghost use Rattle.blocks.specs.Counting.{first, is_edf_key};
ghost use Rattle.blocks.specs.Judging.{edf_first, proves_kind2};
ghost use Rattle.reading.specs.Entries.{entries_from};

use header::frame::header_at;
use header::statements::Statements;
use reading::entry::first_entry;
use reading::keys::is_edf_key;

// Whether all statements are well formed: error 6 is not given.
fn is_well_formed(s: &[u8], from: usize) -> bool
    ensures { result ≡ is_some (statements_from s.now from) }
{
    for next in Statements::new(s, from) {
        if next.is_err() {
            return false;
        }
    }
    true
}

// Whether the key of the first statement is an EDF_ key.
fn starts_with_edf_key(s: &[u8], from: usize) -> bool
    ensures { result ≡ is_edf_key (first (entries_from s.now from)).key }
{
    match first_entry(s, from) {
        Some(e) => is_edf_key(e.key),
        None => false,
    }
}

// Whether all statements are well formed and the key of the first is an EDF_ key. The key is tested first, since that is quick.
fn is_edf_body(s: &[u8], from: usize) -> bool
    ensures { result ≡ edf_first s.now (statements_from s.now from) }
{
    starts_with_edf_key(s, from) && is_well_formed(s, from)
}

// Whether the header at `at`, as the first of a file, makes it one of kind 2.
pub fn proves_kind_2(file: &[u8], at: usize) -> bool
    ensures { result ≡ proves_kind2 file.now at }
{
    let Ok(h) = header_at(file, at) else {
        return false;
    };
    is_edf_body(&file[..h.right], h.left + 1)
}
