// Rows of elements of one, two or four bytes, 1,024 bytes a turn: into a local array, one after another with the low byte first;
// the offset added there, at a stride that the compiler knows, so that it takes several at once; and out in the order asked for.
ghost use Rattle.std.specs.Prelude.{◌≡◌, ◌*◌, ◌≤◌, eqb, length};
ghost use Rattle.raster.specs.Strided.{turned, row_of};
ghost use Rattle.strides.specs.Row.{Fits, elements_of};
ghost use Rattle.shift.specs.Shifting.{Short};
ghost use Rattle.shift.specs.Adding.{added};

use crate::adding::each_added;
use elements::rows::{kept, reversed};
use shift::lane::Lane;
use shift::shift::Addition;
use strides::places::{Row, spot};

// A row with the low byte of each element first.
fn low_first(src: &[u8], w: usize, row: Row, order: u8, out: &mut [u8])
    requires short { Short w }
    requires fits { Fits row w (length src.now) (length out.old) }
    ensures { out.new ≡ elements_of (turned (eqb order 1)) w src.now row }
{
    if order == 1 {
        reversed(src, w, &row, out);
    } else {
        kept(src, w, &row, out);
    }
}

// Elements that stand one after another, in the order asked for: made with the low byte first, and reversed where that is not it.
fn low_stored<const W: usize, T: Lane<W>>(src: &[u8], n: usize, a: Addition, out: &mut [u8])
    requires short { Short W × (length out.old ≤ 1024) }
    requires out_in_bounds { length out.old ≤ length src.now }
    requires out_len { length out.old ≡ W * n }
    ensures { out.new ≡ row_of (added W a) W src.now 0 W 0 n }
{
    let run = Row {
        at: 0,
        up: W,
        down: 0,
        count: n,
    };
    let low = Addition { asked: 2, ..a };
    if a.asked == 1 {
        let end = out.len();
        let mut made = [0; 1024];
        each_added::<W, T>(src, run, low, &mut made[..end]);
        reversed(&made[..end], W, &run, out);
    } else {
        each_added::<W, T>(src, run, low, out);
    }
}

fn block<const W: usize, T: Lane<W>>(src: &[u8], row: Row, a: Addition, out: &mut [u8])
    requires short { Short W × (length out.old ≤ 1024) }
    requires fits { Fits row W (length src.now) (length out.old) }
    ensures { out.new ≡ elements_of (added W a) W src.now row }
{
    let end = out.len();
    let mut held = [0; 1024];
    low_first(src, W, row, a.order, &mut held[..end]);
    low_stored::<W, T>(&held[..end], row.count, Addition { order: 2, ..a }, out);
}

pub fn blocks<const W: usize, T: Lane<W>>(src: &[u8], row: Row, a: Addition, out: &mut [u8])
    requires short { Short W }
    requires fits { Fits row W (length src.now) (length out.old) }
    ensures { out.new ≡ elements_of (added W a) W src.now row }
{
    let most = 1024 / W;
    for i in (0..row.count).step_by(most) {
        let at = spot(row.at, row.up, row.down, i, W, src.len());
        let count = most.min(row.count - i);
        block::<W, T>(
            src,
            Row { at, count, ..row },
            a,
            &mut out[W * i..W * (i + count)],
        );
    }
}
