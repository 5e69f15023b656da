// The frame of a header: its start pattern, the end of its body, its end pattern.
ghost use Rattle.std.specs.Prelude.{◌≡◌, ◌<◌, length};
ghost use Rattle.header.specs.Frame.{opening_at, closing_at, ends_body, frame_at, header_at};

use super::search::find_by_blocks;
use super::{HEADER_LIMIT, Header, error_at};
use scan::{Error, byte_at};

// Where the `{` of a start pattern at `start` is.
#[tactic(auto, unfolding(crate::specs::Frame::opening_at))]
fn opening_at(s: &[u8], start: usize) -> Option<usize>
    requires { start < length s.now }
    ensures { result ≡ opening_at s.now start }
{
    match byte_at(s, start) {
        b'{' => Some(start),
        b'\n' if byte_at(s, start + 1) == b'{' => Some(start + 1),
        b'\r' if byte_at(s, start + 1) == b'\n' && byte_at(s, start + 2) == b'{' => Some(start + 2),
        _ => None,
    }
}

// Where the end pattern ends whose `}` is at `right`.
#[tactic(auto, unfolding(crate::specs::Frame::closing_at))]
fn closing_at(s: &[u8], right: usize) -> Option<usize>
    requires { right < length s.now }
    ensures { result ≡ closing_at s.now right }
{
    match byte_at(s, right + 1) {
        b'\n' => Some(right + 2),
        b'\r' if byte_at(s, right + 2) == b'\n' => Some(right + 3),
        _ => None,
    }
}

// Whether a byte can't stand in a body. There is no branch, so that the compiler tests many bytes at once.
#[tactic(auto, unfolding(crate::specs::Frame::ends_body))]
fn ends_body(b: u8) -> bool
    ensures { result ≡ ends_body b }
{
    (b == 0) | ((127 < b) | ((b == b'{') | (b == b'}')))
}

// The header at `start`, of any length.
#[tactic(auto, unfolding(crate::specs::Frame::frame_at), using(crate::proofs::FrameSteps::opening_near))]
fn frame_at(s: &[u8], start: usize) -> Result<Header, Error>
    requires { start < length s.now }
    ensures { result ≡ frame_at s.now start }
{
    let left = opening_at(s, start).ok_or(error_at(3, start))?;
    let right = find_by_blocks(s, left + 1, ends_body).ok_or(error_at(5, start))?;
    if s[right] != b'}' {
        return Err(error_at(4, right));
    }
    let next = closing_at(s, right).ok_or(error_at(5, start))?;
    Ok(Header {
        left,
        right,
        length: next - start,
    })
}

// The header that starts at `start`. Nothing past the first 65,536 bytes from there is looked at.
#[tactic(auto, using(crate::proofs::FrameSteps::past_the_end, crate::proofs::FrameSteps::whole_rest, crate::proofs::FrameSteps::in_window))]
pub fn header_at(s: &[u8], start: usize) -> Result<Header, Error>
    ensures { result ≡ header_at s.now start }
{
    if s.len() <= start {
        return Err(error_at(3, start));
    }
    if s.len() - start <= HEADER_LIMIT {
        return frame_at(s, start);
    }
    frame_at(&s[..start + HEADER_LIMIT], start)
}
