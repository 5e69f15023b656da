// The codes of the words that the fields of an array may hold.
ghost use Rattle.std.specs.Prelude.{◌≡◌, ◌<◌, length};
ghost use Rattle.raster.specs.Types.{code_of};
ghost use Rattle.description.specs.Answers.{contents};

// The words of the fields DataType, ByteOrder and Compression, in the order of their codes.
pub const TYPE_WORDS: [&[u8]; 10] = [
    b"UnsignedByte",
    b"SignedByte",
    b"UnsignedShort",
    b"SignedShort",
    b"UnsignedInteger",
    b"SignedInteger",
    b"FloatIEEE32",
    b"Unsigned64",
    b"Signed64",
    b"FloatIEEE64",
];

pub const ORDER_WORDS: [&[u8]; 2] = [b"HighByteFirst", b"LowByteFirst"];

pub const COMPRESSION_WORDS: [&[u8]; 1] = [b"None"];

// The code of a word: its number among `words`, from 1.
pub fn code_of(words: &[&[u8]], v: &[u8]) -> Option<u8>
    requires { length words.now < 256 }
    ensures { result ≡ code_of (contents words.now) v.now }
{
    let place = words.iter().position(|word| scan::equal(v, word))?;
    Some(place as u8 + 1)
}
