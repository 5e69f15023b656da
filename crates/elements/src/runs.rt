// Runs: elements that stand one after another.
ghost use Rattle.std.specs.Prelude.{◌≡◌, true, ◌-◌, ◌≤◌, length, take, drop};
ghost use Rattle.raster.specs.Strided.{turned, Width};
ghost use Rattle.strides.specs.Row.{Fits, elements_of};

use groups::orders::EachReversed;
use strides::changes::Reversed;
use strides::places::Row;
use strides::rows::each;

// The bytes from `at` on, which may lie past the end where there is none. Out of line: the copy asks first whether the two overlap,
// and in a loop of its callers that would be prepared for each plane.
#[inline(never)]
pub fn run(src: &[u8], at: usize, out: &mut [u8])
    requires { length out.old ≤ length src.now - at }
    ensures { out.new ≡ take (length out.old) (drop at src.now) }
{
    if !out.is_empty() {
        out.copy_from_slice(&src[at..at + out.len()]);
    }
}

// A run of elements of W bytes, the bytes of each reversed: sixteen bytes a turn, and what is left one element a turn.
pub fn reversed_run<const W: usize>(src: &[u8], row: Row, out: &mut [u8])
    requires width { Width W }
    requires up { row.up ≡ W }
    requires down { row.down ≡ 0 }
    requires fits { Fits row W (length src.now) (length out.old) }
    ensures { out.new ≡ elements_of (turned true) W src.now row }
{
    let c = 16 / W;
    let m = row.count / c;
    let h = 16 * m;
    let groups = Row {
        at: row.at,
        up: 16,
        down: 0,
        count: m,
    };
    each::<16, _>(src, groups, &EachReversed::<W> {}, &mut out[..h]);
    let left = Row {
        at: row.at + h,
        up: W,
        down: 0,
        count: row.count - c * m,
    };
    each::<W, _>(src, left, &Reversed, &mut out[h..]);
}
