// The bytes of an element, stored in one order, to those that are delivered: the offset added, in the order asked for.
ghost use Rattle.std.specs.Prelude.{◌≡◌, ◌<◌, ◌≤◌};
ghost use Rattle.shift.specs.Adding.{added};
ghost use Rattle.shift.specs.HighEnd.{added_high};

use crate::lane::Lane;
use crate::shift::Addition;

// As a number of the type T. The same steps at the high end of 64 bits give the same bytes.
pub fn add<const W: usize, T: Lane<W>>(b: [u8; W], a: Addition) -> [u8; W]
    ensures value { result ≡ added W a b.entry }
    ensures high_end { 0 < W → W ≤ 8 → result ≡ added_high W a b.entry }
{
    T::read(b, a.order).shifted(a.shift).written(a.asked)
}
