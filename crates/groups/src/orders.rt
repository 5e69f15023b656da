// The bytes of each element of a group reversed, and the order of its elements.
ghost use Rattle.std.specs.Prelude.{◌≡◌, true, ◌*◌, ◌/◌};
ghost use Rattle.raster.specs.Strided.{turned, row_of};
ghost use Rattle.groups.specs.Exchanged.{exchanged};

use strides::changes::{Change, Kept, Reversed};
use strides::places::Row;
use strides::rows::each;

// Sixteen bytes as elements of W: the bytes of each reversed.
#[derive(Drop)]
pub struct EachReversed<const W: usize> {
    ghost whole: { W * (16 / W) ≡ 16 },
}

impl<const W: usize> Change<16> for EachReversed<W> {
    ghost made = { λ _ b. row_of (turned true) W b 0 W 0 (16 / W) };

    fn change(&self, b: [u8; 16]) -> [u8; 16]
        ensures { result ≡ row_of (turned true) W b 0 W 0 (16 / W) }
    {
        let mut r = [0; 16];
        let row = Row {
            at: 0,
            up: W,
            down: 0,
            count: 16 / W,
        };
        each::<W, _>(&b, row, &Reversed, &mut r);
        r
    }
}

// Sixteen bytes as elements of W: the last of them first.
#[derive(Drop)]
pub struct Exchanged<const W: usize> {
    ghost whole: { W * (16 / W) ≡ 16 },
}

impl<const W: usize> Change<16> for Exchanged<W> {
    ghost made = { λ _ b. exchanged W b };

    fn change(&self, b: [u8; 16]) -> [u8; 16]
        ensures { result ≡ exchanged W b }
    {
        let mut r = [0; 16];
        let row = Row {
            at: 16 - W,
            up: 0,
            down: W,
            count: 16 / W,
        };
        each::<W, _>(&b, row, &Kept, &mut r);
        r
    }
}
