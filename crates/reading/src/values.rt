// The numbers that the values of the keys for blocks stand for.
ghost use Rattle.std.specs.Prelude.{◌≡◌};
ghost use Rattle.text.specs.Number.{whole_number};
ghost use Rattle.blocks.specs.Reading.{at_least, asked_for};
ghost use Rattle.reading.specs.Lengths.{SizeSaid};

use text::number::whole_number;

// What EDF_HeaderSize says of a header's length: that it is the length, or nothing; that it is another whole number; no whole
// number.
#[derive(Clone, Copy)]
pub enum HeaderSize {
    Kept,
    Other,
    Invalid,
}

// A whole number that is not below `least`.
pub fn number_at_least(v: &[u8], least: usize) -> Option<usize>
    ensures { result ≡ at_least least (whole_number v.now) }
{
    let n = usize::try_from(whole_number(v)?).ok()?;
    (n >= least).then_some(n)
}

// How many data blocks EDF_DataBlocks asks for.
#[tactic(auto, unfolding(blocks::specs::Reading::asked_for))]
pub fn asked_for(v: &[u8]) -> Option<usize>
    ensures { result ≡ asked_for v.now }
{
    if scan::equal(v, b"Undetermined") {
        Some(1)
    } else {
        number_at_least(v, 1)
    }
}

// What a value says of a header of n bytes.
#[tactic(auto, unfolding(blocks::specs::Judging::is_whole_or_absent, blocks::specs::Judging::is_length_or_absent))]
pub fn size_said(v: &[u8], n: usize) -> HeaderSize
    ensures { SizeSaid n (Some v.now) result }
{
    match whole_number(v) {
        None => HeaderSize::Invalid,
        Some(z) if usize::try_from(z).is_ok_and(|m| m == n) => HeaderSize::Kept,
        Some(_) => HeaderSize::Other,
    }
}
