// Where an element of a row stands.
ghost use Rattle.std.specs.Prelude.{◌≡◌, ◌+◌, ◌<◌, ◌≤◌, length, take, drop};
ghost use Rattle.raster.specs.Strided.{place, Stands, Inside};

use octets::reading::get;

// Elements at a stride: the first stands at `at`, and each next one `up` bytes above, or `down` bytes below. One of the two is 0.
#[derive(Clone, Copy)]
pub struct Row {
    pub at: usize,
    pub up: usize,
    pub down: usize,
    pub count: usize,
}

impl Row {
    // The bytes of the element with index i.
    pub fn element<const W: usize>(self, src: &[u8], i: usize) -> [u8; W]
        requires inside { Inside self.at self.up self.down self.count W (length src.now) }
        requires below { i < self.count }
        ensures { result ≡ take W (drop (place self.at self.up self.down i) src.now) }
    {
        get(src, spot(self.at, self.up, self.down, i, W, src.len()))
    }
}

// The byte offset of index i. `w` and `len` are for the contract alone.
pub fn spot(at: usize, up: usize, down: usize, i: usize, w: usize, len: usize) -> usize
    requires { Stands at up down w len i }
    ensures { (result ≡ place at up down i) × (result + w ≤ len) }
{
    at + up * i - down * i
}
