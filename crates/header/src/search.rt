// Searching for a byte that passes a test.
ghost use Rattle.std.specs.Prelude.{◌≡◌, ℕ, Bool, not};
ghost use Rattle.scan.specs.Search.{first_from};
ghost use Rattle.text.specs.Text.{every};
ghost use Rattle.text.specs.Tests.{TestsAs};

// The bytes that are looked at together.
const BLOCK: usize = 64;

// The first offset from `from` on whose byte passes the test.
#[tactic(auto, using(scan::proofs::Searches::search_hit, scan::proofs::Searches::search_on, scan::proofs::Searches::search_end))]
pub fn find_where<F: Fn(u8) -> bool>(s: &[u8], from: usize, test: F) -> Option<usize>
    requires { F.IsAlwaysCallable test }
    ensures { (p : ℕ → Bool) → TestsAs F.Fn test p → result ≡ first_from p s.now from }
{
    for i in from..s.len() {
        if test(s[i]) {
            return Some(i);
        }
    }
    None
}

// Whether no byte passes the test. All are looked at, whatever the first are, so that the compiler tests many at once.
fn none_passes<F: Fn(u8) -> bool>(l: &[u8], test: F) -> bool
    requires { F.IsAlwaysCallable test }
    ensures { (p : ℕ → Bool) → TestsAs F.Fn test p → result ≡ every (λ b. not (p b)) l.now }
{
    let mut none = true;
    for &b in l {
        none &= !test(b);
    }
    none
}

// As `find_where`, a block at a time as long as no byte of it passes the test.
pub fn find_by_blocks<F: Fn(u8) -> bool>(s: &[u8], from: usize, test: F) -> Option<usize>
    requires { F.IsAlwaysCallable test }
    ensures { (p : ℕ → Bool) → TestsAs F.Fn test p → result ≡ first_from p s.now from }
{
    let mut i = from;
    while i < s.len() && s.len() - i >= BLOCK && none_passes(&s[i..i + BLOCK], &test) {
        i += BLOCK;
    }
    find_where(s, i, test)
}
