// Keys: folded to small letters, compared and counted without whitespace.
ghost use Rattle.std.specs.Prelude.{◌≡◌, length, drop};
ghost use Rattle.std.specs.Iterator.{YieldsFirst, item_count};
ghost use Rattle.scan.specs.Byte.{same};
ghost use Rattle.text.specs.Fold.{fold};
ghost use Rattle.text.specs.Key.{key_of};

use super::whitespace::find_visible;

// A byte, folded to a small letter: the entry of the list of 128, which is what std's fold of ASCII gives.
#[tactic(auto, unfolding(crate::specs::Fold::fold, crate::specs::Fold::fold_table), using(crate::proofs::Folds::fold_lower))]
pub fn fold_byte(b: u8) -> u8
    ensures { result ≡ fold b }
{
    b.to_ascii_lowercase()
}

// The characters of a key that are left from `at` on: its bytes without whitespace, folded.
#[derive(Drop)]
struct Key<'a> {
    bytes: &'a [u8],
    at: usize,
}

impl Iterator for Key<'_> {
    type Item = u8;

    ghost next_gives = { YieldsFirst (λ s. key_of (drop s.at s.bytes.now)) };

    ghost remaining = { item_count (λ s. key_of (drop s.at s.bytes.now)) };

    fn next(&mut self) -> Option<u8> {
        let i = find_visible(self.bytes, self.at)?;
        self.at = i + 1;
        Some(fold_byte(self.bytes[i]))
    }
}

// Whether two keys are the same once stripped of whitespace and folded.
pub fn same_key(a: &[u8], b: &[u8]) -> bool
    ensures { result ≡ same (key_of a.now) (key_of b.now) }
{
    Key { bytes: a, at: 0 }.eq(Key { bytes: b, at: 0 })
}

// How many characters a key has without its whitespace.
pub fn key_length(k: &[u8]) -> usize
    ensures { result ≡ length (key_of k.now) }
{
    Key { bytes: k, at: 0 }.count()
}
