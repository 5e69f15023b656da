// Rows of elements that are only moved: their bytes as they stand, or reversed. By the loop that is made for stride and width.
ghost use Rattle.std.specs.Prelude.{◌≡◌, true, false, length};
ghost use Rattle.raster.specs.Strided.{turned, Width};
ghost use Rattle.strides.specs.Row.{Fits, elements_of};

use crate::runs::{reversed_run, run};
use backward::rows::{backward, backward_reversed};
use strides::changes::{Kept, Reversed};
use strides::places::Row;
use strides::rows::each;

fn kept_of_width<const W: usize>(src: &[u8], row: &Row, out: &mut [u8])
    requires width { Width W }
    requires fits { Fits row.now W (length src.now) (length out.old) }
    ensures { out.new ≡ elements_of (turned false) W src.now row.now }
{
    if row.up == W && row.down == 0 {
        run(src, row.at, out);
    } else if row.up == 0 && row.down == W {
        backward::<W>(src, *row, out);
    } else {
        each::<W, _>(src, *row, &Kept, out);
    }
}

fn reversed_of_width<const W: usize>(src: &[u8], row: &Row, out: &mut [u8])
    requires width { Width W }
    requires fits { Fits row.now W (length src.now) (length out.old) }
    ensures { out.new ≡ elements_of (turned true) W src.now row.now }
{
    if row.up == W && row.down == 0 {
        reversed_run::<W>(src, *row, out);
    } else if row.up == 0 && row.down == W {
        backward_reversed::<W>(src, *row, out);
    } else {
        each::<W, _>(src, *row, &Reversed, out);
    }
}

// A row of elements of w bytes as they stand. The row comes as a reference: one that was just made is slow to copy.
pub fn kept(src: &[u8], w: usize, row: &Row, out: &mut [u8])
    requires width { Width w }
    requires fits { Fits row.now w (length src.now) (length out.old) }
    ensures { out.new ≡ elements_of (turned false) w src.now row.now }
{
    match w {
        8 => kept_of_width::<8>(src, row, out),
        4 => kept_of_width::<4>(src, row, out),
        2 => kept_of_width::<2>(src, row, out),
        _ => kept_of_width::<1>(src, row, out),
    }
}

// A row of elements of w bytes with the bytes of each reversed.
pub fn reversed(src: &[u8], w: usize, row: &Row, out: &mut [u8])
    requires width { Width w }
    requires fits { Fits row.now w (length src.now) (length out.old) }
    ensures { out.new ≡ elements_of (turned true) w src.now row.now }
{
    match w {
        8 => reversed_of_width::<8>(src, row, out),
        4 => reversed_of_width::<4>(src, row, out),
        2 => reversed_of_width::<2>(src, row, out),
        // One byte is its own reverse.
        _ => kept_of_width::<1>(src, row, out),
    }
}
