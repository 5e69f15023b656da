// What a header says of its own length and of the place of its data. The slice is the file up to the header's `}`, and `from` the
// first byte of its body.
ghost use Rattle.std.specs.Prelude.{◌≡◌, ◌%◌, eqb};
ghost use Rattle.std.specs.Option.{option_copied};
ghost use Rattle.text.specs.Key.{key_of};
ghost use Rattle.header.specs.Entries.{value_in};
ghost use Rattle.blocks.specs.Counting.{counting_in};
ghost use Rattle.blocks.specs.Keys.{HeaderSizeKey};
ghost use Rattle.reading.specs.Entries.{entries_from};
ghost use Rattle.reading.specs.Lengths.{SizeSaid};

use reading::keys::counting_value;
use reading::values::{HeaderSize, size_said};

// The value of an EDF_ key, where it counts in a file of a kind.
#[tactic(auto, unfolding(blocks::specs::Counting::counting_in, header::specs::Entries::lookup))]
pub fn value_of_kind<'a>(s: &'a [u8], from: usize, kind: u8, key: &[u8]) -> Option<&'a [u8]>
    ensures { option_copied result ≡ value_in (key_of key.now) (counting_in kind (entries_from s.now from)) }
{
    if kind == 1 {
        None
    } else {
        counting_value(s, from, key)
    }
}

// What EDF_HeaderSize says of a header of n bytes, where it counts.
pub fn header_size(s: &[u8], from: usize, kind: u8, n: usize) -> HeaderSize
    ensures { SizeSaid n (value_in HeaderSizeKey (counting_in kind (entries_from s.now from))) result }
{
    match value_of_kind(s, from, kind, b"edf_headersize") {
        None => HeaderSize::Kept,
        Some(v) => size_said(v, n),
    }
}

// Whether a header of n bytes is a multiple of the boundary.
pub fn is_multiple(n: usize, boundary: usize) -> bool
    ensures { result ≡ eqb (n % boundary) 0 }
{
    if boundary == 0 {
        n == 0
    } else {
        n % boundary == 0
    }
}
