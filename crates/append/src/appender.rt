// A buffer that is filled from its front.
ghost use Rattle.std.specs.Prelude.{◌≡◌, ◌<◌, ◌^◌, pos, length, replicate};
ghost use Rattle.text.specs.Decimal as text;
ghost use Rattle.append.specs.Append.{HasRoom, AppendedWithin};
ghost use Rattle.append.specs.Most.{decimal_most};

use text::{decimal, signed};

// How many bytes a number takes at most (`decimal_most`).
pub const DECIMAL_MOST: usize = 20;

// Bytes, of which those before the offset `at` are written.
#[derive(Drop)]
pub struct Appender<'a> {
    pub bytes: &'a mut [u8],
    pub at: usize,
}

impl<'a> Appender<'a> {
    pub fn new(bytes: &'a mut [u8]) -> Appender<'a>
        ensures same_buffer { result.bytes.ghost_name ≡ bytes.entry.ghost_name }
        ensures value { (result.bytes.now ≡ bytes.old) × (result.at ≡ 0) }
    {
        Appender { bytes, at: 0 }
    }

    pub fn append(&mut self, bytes: &[u8])
        requires { HasRoom (length bytes.now) self.old }
        ensures { AppendedWithin (length bytes.now) bytes.now self.old self.new }
    {
        let end = self.at + bytes.len();
        self.bytes[self.at..end].copy_from_slice(bytes);
        self.at = end;
    }

    // One byte, `count` times.
    pub fn append_repeated(&mut self, byte: u8, count: usize)
        requires { HasRoom count self.old }
        ensures { AppendedWithin count (replicate count byte) self.old self.new }
    {
        let end = self.at + count;
        self.bytes[self.at..end].fill(byte);
        self.at = end;
    }

    // The decimals of a number.
    pub fn append_decimal(&mut self, n: i64)
        requires { HasRoom decimal_most self.old }
        ensures { AppendedWithin decimal_most (text.decimal n) self.old self.new }
    {
        let mut digits = [0u8; DECIMAL_MOST];
        let start = decimal::decimal(n, &mut digits);
        self.append(&digits[start..]);
    }

    pub fn append_natural(&mut self, n: usize)
        requires { (n < 2 ^ 63) × HasRoom decimal_most self.old }
        ensures { AppendedWithin decimal_most (text.decimal (pos n)) self.old self.new }
    {
        self.append_decimal(signed::up(n as u64));
    }
}
