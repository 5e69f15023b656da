// Whitespace: the bytes, and the first byte that is none.
ghost use Rattle.std.specs.Prelude.{◌≡◌};
ghost use Rattle.scan.specs.Search.{first_from};
ghost use Rattle.text.specs.Whitespace.{whitespace, visible};

// Whether a byte is whitespace.
#[tactic(auto, unfolding(crate::specs::Whitespace::whitespace))]
pub fn is_whitespace(b: u8) -> bool
    ensures { result ≡ whitespace b }
{
    matches!(b, b' ' | b'\t'..=b'\r')
}

// The first offset from `from` on that holds a byte that is no whitespace.
pub fn find_visible(s: &[u8], from: usize) -> Option<usize>
    ensures { result ≡ first_from visible s.now from }
{
    (from..s.len()).find(|&i| !is_whitespace(s[i]))
}
