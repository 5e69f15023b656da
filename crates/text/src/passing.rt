// Whether all bytes pass a test.
ghost use Rattle.std.specs.Prelude.{◌≡◌, ℕ, Bool};
ghost use Rattle.text.specs.Tests.{TestsAs};
ghost use Rattle.text.specs.Text.{every};

// The bytes at the front, which are tested one at a time.
const FRONT: usize = 16;

// The bytes behind them that are tested together.
const PIECE: usize = 64;

// One at a time.
fn each_passes<F: Fn(u8) -> bool>(l: &[u8], test: F) -> bool
    requires { F.IsAlwaysCallable test }
    ensures { (p : ℕ → Bool) → TestsAs F.Fn test p → result ≡ every p l.now }
{
    for &b in l {
        if !test(b) {
            return false;
        }
    }
    true
}

// All are looked at, whatever the first are, so that the compiler tests many at once.
fn piece_passes<F: Fn(u8) -> bool>(piece: &[u8], test: F) -> bool
    requires { F.IsAlwaysCallable test }
    ensures { (p : ℕ → Bool) → TestsAs F.Fn test p → result ≡ every p piece.now }
{
    let mut all = true;
    for &b in piece {
        all &= test(b);
    }
    all
}

// A piece at a time.
fn pieces_pass<F: Fn(u8) -> bool>(l: &[u8], test: F) -> bool
    requires { F.IsAlwaysCallable test }
    ensures { (p : ℕ → Bool) → TestsAs F.Fn test p → result ≡ every p l.now }
{
    for piece in l.chunks(PIECE) {
        if !piece_passes(piece, &test) {
            return false;
        }
    }
    true
}

// The front one at a time: most texts and values are short, and a bad byte there is found at once.
pub fn all_pass<F: Fn(u8) -> bool>(l: &[u8], test: F) -> bool
    requires { F.IsAlwaysCallable test }
    ensures { (p : ℕ → Bool) → TestsAs F.Fn test p → result ≡ every p l.now }
{
    let (front, rest) = l.split_at(l.len().min(FRONT));
    each_passes(front, &test) && pieces_pass(rest, &test)
}
