// Rows of elements to which an offset is added, one element a turn.
ghost use Rattle.std.specs.Prelude.{◌≡◌, length};
ghost use Rattle.strides.specs.Row.{Fits, elements_of};
ghost use Rattle.shift.specs.Adding.{added};

use shift::element::add;
use shift::lane::Lane;
use shift::shift::Addition;
use std::marker::PhantomData;
use strides::changes::Change;
use strides::places::Row;
use strides::rows::each;

// An offset added, to elements as numbers of the type T.
#[derive(Drop)]
pub struct Added<T> {
    pub by: Addition,
    pub of: PhantomData<T>,
}

impl<const W: usize, T: Lane<W>> Change<W> for Added<T> {
    ghost made = { λ a. added W a.by };

    fn change(&self, b: [u8; W]) -> [u8; W]
        ensures { result ≡ added W self.now.by b.entry }
    {
        add::<W, T>(b, self.by)
    }
}

// A row of elements of W bytes.
pub fn each_added<const W: usize, T: Lane<W>>(src: &[u8], row: Row, a: Addition, out: &mut [u8])
    requires { Fits row W (length src.now) (length out.old) }
    ensures { out.new ≡ elements_of (added W a) W src.now row }
{
    let change = Added::<T> {
        by: a,
        of: PhantomData,
    };
    each::<W, _>(src, row, &change, out);
}
