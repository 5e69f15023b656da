// Rows of elements to which an offset is added, at any width.
ghost use Rattle.std.specs.Prelude.{◌≡◌, true, length};
ghost use Rattle.raster.specs.Strided.{Width};
ghost use Rattle.strides.specs.Row.{Fits, elements_of};
ghost use Rattle.shift.specs.Shifting.{Short};
ghost use Rattle.shift.specs.Adding.{added};

use crate::adding::each_added;
use crate::blocks::blocks;
use shift::shift::Addition;
use strides::places::Row;

// Whether blocks are quicker than one element a turn: not for rows of less than 512 bytes, nor where the bytes of elements of
// four would be reversed twice.
pub fn are_quicker(w: usize, n: usize, a: Addition) -> bool
    ensures { result ≡ true → Short w }
{
    match w {
        1 => 512 <= n,
        2 => 256 <= n,
        4 => 128 <= n && !(a.order == 1 && a.asked == 1),
        _ => false,
    }
}

// Block by block. Out of line: shorter rows do not pay for its arrays.
#[inline(never)]
fn by_blocks(src: &[u8], w: usize, row: &Row, a: Addition, out: &mut [u8])
    requires width { Short w }
    requires fits { Fits row.now w (length src.now) (length out.old) }
    ensures { out.new ≡ elements_of (added w a) w src.now row.now }
{
    match w {
        4 => blocks::<4, u32>(src, *row, a, out),
        2 => blocks::<2, u16>(src, *row, a, out),
        _ => blocks::<1, u8>(src, *row, a, out),
    }
}

// Element by element.
fn one_by_one(src: &[u8], w: usize, row: &Row, a: Addition, out: &mut [u8])
    requires width { Width w }
    requires fits { Fits row.now w (length src.now) (length out.old) }
    ensures { out.new ≡ elements_of (added w a) w src.now row.now }
{
    match w {
        8 => each_added::<8, u64>(src, *row, a, out),
        4 => each_added::<4, u32>(src, *row, a, out),
        2 => each_added::<2, u16>(src, *row, a, out),
        _ => each_added::<1, u8>(src, *row, a, out),
    }
}

// By blocks where that is quicker, else element by element.
pub fn with_offset(src: &[u8], w: usize, row: &Row, a: Addition, out: &mut [u8])
    requires width { Width w }
    requires fits { Fits row.now w (length src.now) (length out.old) }
    ensures { out.new ≡ elements_of (added w a) w src.now row.now }
{
    if are_quicker(w, row.count, a) {
        by_blocks(src, w, row, a, out);
    } else {
        one_by_one(src, w, row, a, out);
    }
}
