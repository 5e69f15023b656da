// Backward runs: elements that stand one after another, and of which the last comes first. They go sixteen bytes a turn; what is
// left goes one element a turn.
ghost use Rattle.std.specs.Prelude.{◌≡◌, true, false, length};
ghost use Rattle.raster.specs.Strided.{turned, Width};
ghost use Rattle.strides.specs.Row.{Fits, elements_of};

use groups::orders::Exchanged;
use strides::changes::Kept;
use strides::places::Row;
use strides::rows::each;

// A backward run of elements of W bytes as they stand.
pub fn backward<const W: usize>(src: &[u8], row: Row, out: &mut [u8])
    requires width { Width W }
    requires up { row.up ≡ 0 }
    requires down { row.down ≡ W }
    requires fits { Fits row W (length src.now) (length out.old) }
    ensures { out.new ≡ elements_of (turned false) W src.now row }
{
    let c = 16 / W;
    let m = row.count / c;
    let h = 16 * m;
    // A place below 0 is one of no elements.
    let groups = Row {
        at: row.at.saturating_sub(16 - W),
        up: 0,
        down: 16,
        count: m,
    };
    each::<16, _>(src, groups, &Exchanged::<W> {}, &mut out[..h]);
    let left = Row {
        at: row.at.saturating_sub(h),
        up: 0,
        down: W,
        count: row.count - c * m,
    };
    each::<W, _>(src, left, &Kept, &mut out[h..]);
}

// With the bytes of each element reversed it is a backward run of single bytes.
pub fn backward_reversed<const W: usize>(src: &[u8], row: Row, out: &mut [u8])
    requires width { Width W }
    requires up { row.up ≡ 0 }
    requires down { row.down ≡ W }
    requires fits { Fits row W (length src.now) (length out.old) }
    ensures { out.new ≡ elements_of (turned true) W src.now row }
{
    if row.count > 0 {
        let bytes = Row {
            at: row.at + (W - 1),
            up: 0,
            down: 1,
            count: W * row.count,
        };
        backward::<1>(src, bytes, out);
    }
}
