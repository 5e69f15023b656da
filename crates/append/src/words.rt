// Identities and words of a header.
ghost use Rattle.std.specs.Prelude.{◌≡◌, [], ◌-◌, ◌≤◌, get_or};
ghost use Rattle.blocks.specs.IdentityText.{instance_word, memory_text, identity_text};
ghost use Rattle.raster.specs.Types.{type_of, order_words};
ghost use Rattle.append.specs.Append.{HasRoom, AppendedWithin};
ghost use Rattle.append.specs.Most.{instance_most, memory_most, identity_most, type_most, order_most};

use crate::appender::{Appender, DECIMAL_MOST};

// How many bytes an identity and the words take at most (`specs/Most`).
const INSTANCE_MOST: usize = 5;

const MEMORY_MOST: usize = 1 + DECIMAL_MOST;

pub const IDENTITY_MOST: usize = DECIMAL_MOST + 7 + INSTANCE_MOST + MEMORY_MOST;

pub const TYPE_MOST: usize = 15;

pub const ORDER_MOST: usize = 13;

// The words of the types, by their codes from 1 on.
const TYPE_WORDS: [&[u8]; 10] = [
    b"UnsignedByte",
    b"SignedByte",
    b"UnsignedShort",
    b"SignedShort",
    b"UnsignedInteger",
    b"SignedInteger",
    b"FloatIEEE32",
    b"Unsigned64",
    b"Signed64",
    b"FloatIEEE64",
];

fn type_word(datatype: u8) -> &'static [u8]
    requires { (1 ≤ datatype) × (datatype ≤ 10) }
    ensures { result.now ≡ (type_of datatype).word }
{
    TYPE_WORDS[datatype as usize - 1]
}

impl Appender<'_> {
    // ---- The identity

    fn append_instance(&mut self, instance: u8)
        requires { HasRoom instance_most self.old }
        ensures { AppendedWithin instance_most (instance_word instance) self.old self.new }
    {
        if instance == 1 {
            self.append(b"Psd");
        } else {
            self.append(b"Error");
        }
    }

    fn append_memory(&mut self, memory: i64)
        requires { HasRoom memory_most self.old }
        ensures { AppendedWithin memory_most (memory_text memory) self.old self.new }
    {
        if memory != 1 {
            self.append(b".");
            self.append_decimal(memory);
        }
    }

    pub fn append_identity(&mut self, sequence: i64, instance: u8, memory: i64)
        requires { HasRoom identity_most self.old }
        ensures { AppendedWithin identity_most (identity_text sequence instance memory) self.old self.new }
    {
        self.append_decimal(sequence);
        self.append(b".Image.");
        self.append_instance(instance);
        self.append_memory(memory);
    }

    // ---- The words of an array's fields

    pub fn append_order(&mut self, byteorder: u8)
        requires le_byteorder { (1 ≤ byteorder) × (byteorder ≤ 2) }
        requires room { HasRoom order_most self.old }
        ensures { AppendedWithin order_most (get_or order_words (byteorder - 1) []) self.old self.new }
    {
        if byteorder == 1 {
            self.append(b"HighByteFirst");
        } else {
            self.append(b"LowByteFirst");
        }
    }

    pub fn append_type(&mut self, datatype: u8)
        requires le_datatype { (1 ≤ datatype) × (datatype ≤ 10) }
        requires room { HasRoom type_most self.old }
        ensures { AppendedWithin type_most (type_of datatype).word self.old self.new }
    {
        self.append(type_word(datatype));
    }
}
