// The bytes of one element reversed.
ghost use Rattle.std.specs.Prelude.{◌≡◌, true};
ghost use Rattle.raster.specs.Strided.{turned};

pub fn reverse<const W: usize>(mut b: [u8; W]) -> [u8; W]
    ensures { result ≡ turned true b.entry }
{
    b.reverse();
    b
}
