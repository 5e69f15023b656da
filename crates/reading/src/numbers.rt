// Numbers that a header gives by its keys. The slice is the file up to the header's `}`, and `from` the first byte of its body.
ghost use Rattle.std.specs.Prelude.{◌≡◌};
ghost use Rattle.std.specs.Option.{option_copied};
ghost use Rattle.text.specs.Key.{key_of};
ghost use Rattle.header.specs.Entries.{value_in};
ghost use Rattle.blocks.specs.Counting.{counting, size_value};
ghost use Rattle.blocks.specs.Reading.{number_or};
ghost use Rattle.reading.specs.Entries.{entries_from};

use super::keys::{any_value, counting_value};
use super::values::number_at_least;

// The number that a value stands for, where the value may be absent.
#[tactic(auto, unfolding(blocks::specs::Reading::number_or))]
fn number_or(value: Option<&[u8]>, default: usize, least: usize) -> Option<usize>
    ensures { result ≡ number_or default least (option_copied value.entry) }
{
    match value {
        None => Some(default),
        Some(v) => number_at_least(v, least),
    }
}

// The number of a key that may be absent, among the statements that count.
pub fn counting_number(
    s: &[u8],
    from: usize,
    key: &[u8],
    default: usize,
    least: usize,
) -> Option<usize>
    ensures { result ≡ number_or default least (value_in (key_of key.now) (counting (entries_from s.now from))) }
{
    number_or(counting_value(s, from, key), default, least)
}

// The size of the block's data, in a file of a kind.
pub fn data_size(s: &[u8], from: usize, kind: u8) -> Option<usize>
    ensures { result ≡ number_or 0 0 (size_value kind (entries_from s.now from)) }
{
    if kind == 1 {
        number_or(any_value(s, from, b"size"), 0, 0)
    } else {
        counting_number(s, from, b"edf_binarysize", 0, 0)
    }
}
