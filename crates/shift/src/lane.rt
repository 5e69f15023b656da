// The numbers that an offset is added to: of as many bits as the element has, so that the compiler takes several at once.
ghost use Rattle.std.specs.Prelude.{◌≡◌, ℕ};
ghost use Rattle.raster.specs.Bytes.{number_of, bytes_of, low_first, low_bytes};
ghost use Rattle.shift.specs.HighEnd.{shift_high, aligned_from, restored_to};
ghost use Rattle.shift.specs.Shifting.{shift_by};

use crate::shift::Shift;

// An element of W bytes as a number of the processor. 1 is the code of the order with the high byte first.
pub trait Lane<const W: usize>: Copy {
    ghost number: { Self → ℕ };

    fn read(b: [u8; W], order: u8) -> Self
        ensures { number result ≡ number_of order b.entry };

    fn shifted(self, s: Shift) -> Self
        ensures { number result ≡ shift_by W s (number self) };

    fn written(self, asked: u8) -> [u8; W]
        ensures { result ≡ bytes_of asked W (number self) };
}

impl Lane<1> for u8 {
    ghost number = { λ n. n };

    fn read(b: [u8; 1], order: u8) -> u8
        ensures { result ≡ number_of order b }
    {
        b[0]
    }

    fn shifted(self, s: Shift) -> u8 {
        let inverted = (s.inverted >> 56) as u8;
        let lowered = ((s.high >> 56) as u8).min(self ^ inverted);
        lowered.wrapping_add((s.delta >> 56) as u8) ^ inverted
    }

    fn written(self, _: u8) -> [u8; 1] {
        [self]
    }
}

impl Lane<2> for u16 {
    ghost number = { λ n. n };

    fn read(b: [u8; 2], order: u8) -> u16
        ensures { result ≡ number_of order b }
    {
        if order == 1 {
            u16::from_be_bytes(b)
        } else {
            u16::from_le_bytes(b)
        }
    }

    fn shifted(self, s: Shift) -> u16 {
        let inverted = (s.inverted >> 48) as u16;
        let lowered = ((s.high >> 48) as u16).min(self ^ inverted);
        lowered.wrapping_add((s.delta >> 48) as u16) ^ inverted
    }

    fn written(self, asked: u8) -> [u8; 2] {
        if asked == 1 {
            self.to_be_bytes()
        } else {
            self.to_le_bytes()
        }
    }
}

impl Lane<4> for u32 {
    ghost number = { λ n. n };

    fn read(b: [u8; 4], order: u8) -> u32
        ensures { result ≡ number_of order b }
    {
        if order == 1 {
            u32::from_be_bytes(b)
        } else {
            u32::from_le_bytes(b)
        }
    }

    fn shifted(self, s: Shift) -> u32 {
        let inverted = (s.inverted >> 32) as u32;
        let lowered = ((s.high >> 32) as u32).min(self ^ inverted);
        lowered.wrapping_add((s.delta >> 32) as u32) ^ inverted
    }

    fn written(self, asked: u8) -> [u8; 4] {
        if asked == 1 {
            self.to_be_bytes()
        } else {
            self.to_le_bytes()
        }
    }
}

// Such an element fills the 64 bits, so these are the steps at their high end too.
impl Lane<8> for u64 {
    ghost number = { λ n. n };

    fn read(b: [u8; 8], order: u8) -> u64
        ensures value { result ≡ number_of order b }
        ensures aligned { result ≡ aligned_from order 1 (low_first b) }
    {
        if order == 1 {
            u64::from_be_bytes(b)
        } else {
            u64::from_le_bytes(b)
        }
    }

    fn shifted(self, s: Shift) -> u64
        ensures value { result ≡ shift_by 8 s self }
        ensures high { result ≡ shift_high 1 s self }
    {
        s.high.min(self ^ s.inverted).wrapping_add(s.delta) ^ s.inverted
    }

    fn written(self, asked: u8) -> [u8; 8]
        ensures value { result ≡ bytes_of asked 8 self }
        ensures restored { result ≡ low_bytes 8 (restored_to asked 1 self) }
    {
        if asked == 1 {
            self.to_be_bytes()
        } else {
            self.to_le_bytes()
        }
    }
}
