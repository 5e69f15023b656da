// Rows of elements at any stride and width.
ghost use Rattle.std.specs.Prelude.{◌≡◌, length};
ghost use Rattle.strides.specs.Row.{Fits, elements_of};

use crate::changes::Change;
use crate::places::Row;
use octets::writing::put;

// Each element changed.
pub fn each<const W: usize, C: Change<W>>(src: &[u8], row: Row, by: &C, out: &mut [u8])
    requires { Fits row W (length src.now) (length out.old) }
    ensures { out.new ≡ elements_of (C.made by.now) W src.now row }
{
    for i in 0..row.count {
        put(out, W * i, by.change(row.element(src, i)));
    }
}
