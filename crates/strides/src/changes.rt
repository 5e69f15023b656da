// What is made of the bytes of an element.
ghost use Rattle.std.specs.Prelude.{◌≡◌, true, false, List, ℕ};
ghost use Rattle.raster.specs.Strided.{turned};

use octets::orders::reverse;

pub trait Change<const W: usize> {
    ghost made: { Self → List ℕ → List ℕ };

    fn change(&self, b: [u8; W]) -> [u8; W]
        ensures { result ≡ made self.now b.entry };
}

// The bytes as they stand.
#[derive(Drop)]
pub struct Kept;

impl<const W: usize> Change<W> for Kept {
    ghost made = { λ _. turned false };

    fn change(&self, b: [u8; W]) -> [u8; W]
        ensures { result ≡ turned false b.entry }
    {
        b
    }
}

// The bytes reversed.
#[derive(Drop)]
pub struct Reversed;

impl<const W: usize> Change<W> for Reversed {
    ghost made = { λ _. turned true };

    fn change(&self, b: [u8; W]) -> [u8; W]
        ensures { result ≡ turned true b.entry }
    {
        reverse(b)
    }
}
