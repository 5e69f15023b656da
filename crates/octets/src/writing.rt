// The bytes of one element, into the buffer.
ghost use Rattle.std.specs.Prelude.{◌≡◌, ◌+◌, ◌≤◌, length};
ghost use Rattle.raster.specs.Strided.{patched};

pub fn put<const W: usize>(out: &mut [u8], o: usize, b: [u8; W])
    requires { o + W ≤ length out.old }
    ensures { out.new ≡ patched o W out.old b.entry }
{
    out[o..o + W].copy_from_slice(&b);
}
