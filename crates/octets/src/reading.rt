// The bytes of one element, out of the file: all of them read before one is written.
ghost use Rattle.std.specs.Prelude.{◌≡◌, ◌+◌, ◌≤◌, length, take, drop};

pub fn get<const W: usize>(src: &[u8], p: usize) -> [u8; W]
    requires { p + W ≤ length src.now }
    ensures { result ≡ take W (drop p src.now) }
{
    let mut b = [0; W];
    b.copy_from_slice(&src[p..p + W]);
    b
}
