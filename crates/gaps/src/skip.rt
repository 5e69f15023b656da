// The first byte from an offset on that is no whitespace.
ghost use Rattle.std.specs.Prelude.{◌≡◌};
ghost use Rattle.text.specs.Whitespace.{visible, visible_from};

use header::search::find_by_blocks;

// Whether a byte is no whitespace. There is no branch, so that the compiler tests many bytes at once.
#[tactic(auto, unfolding(text::specs::Whitespace::visible, text::specs::Whitespace::whitespace))]
fn is_visible(b: u8) -> bool
    ensures { result ≡ visible b }
{
    !((b == 32) | ((9 <= b) & (b <= 13)))
}

// The first offset from `from` on whose byte is no whitespace, or the length where there is none. The byte at `from` is tested first:
// in most files no whitespace stands between blocks.
pub fn skip(s: &[u8], from: usize) -> usize
    ensures { result ≡ visible_from s.now from }
{
    if from < s.len() && is_visible(s[from]) {
        from
    } else {
        find_by_blocks(s, from, is_visible).unwrap_or(s.len())
    }
}
