// Where the next block starts.
ghost use Rattle.std.specs.Prelude.{◌≡◌};
ghost use Rattle.blocks.specs.Opening.{first_start, next_start, start_after};

use super::kind::proves_kind_2;
use super::skip::skip;

// The first block of a file: behind whitespace, if its header does not make the file one of kind 2; else at 0.
#[tactic(auto, unfolding(blocks::specs::Opening::first_start))]
fn first_start(file: &[u8]) -> usize
    ensures { result ≡ first_start file.now }
{
    let at = skip(file, 0);
    if at == 0 || proves_kind_2(file, at) {
        0
    } else {
        at
    }
}

// The block after one that ends at `end`, in a file of a kind: in kind 1 behind whitespace.
#[tactic(auto, unfolding(blocks::specs::Opening::next_start))]
fn next_start(file: &[u8], kind: u8, end: usize) -> usize
    ensures { result ≡ next_start file.now kind end }
{
    if kind == 1 { skip(file, end) } else { end }
}

// The block after `count` others, of which the last ends at `end`.
#[tactic(auto, unfolding(blocks::specs::Opening::start_after))]
pub fn start_after(file: &[u8], count: usize, kind: u8, end: usize) -> usize
    ensures { result ≡ start_after file.now count kind end }
{
    if count == 0 {
        first_start(file)
    } else {
        next_start(file, kind, end)
    }
}
