// The width and the class of a data type.
ghost use Rattle.std.specs.Prelude.{◌≡◌};
ghost use Rattle.raster.specs.Types.{class_number, type_of};

// How the bits of an element stand for a value.
#[derive(Clone, Copy, PartialEq, Eq)]
pub enum Class {
    Unsigned,
    Signed,
    Float,
}

// By the code of a type, its width and its class. No type has the code 0.
const TYPES: [(usize, Class); 11] = [
    (1, Class::Unsigned),
    (1, Class::Unsigned),
    (1, Class::Signed),
    (2, Class::Unsigned),
    (2, Class::Signed),
    (4, Class::Unsigned),
    (4, Class::Signed),
    (4, Class::Float),
    (8, Class::Unsigned),
    (8, Class::Signed),
    (8, Class::Float),
];

// What no type has the code of is taken for an unsigned byte.
fn type_at(datatype: u8) -> (usize, Class)
    ensures { result ≡ ((type_of datatype).width, (type_of datatype).class) }
{
    TYPES
        .get(datatype as usize)
        .copied()
        .unwrap_or((1, Class::Unsigned))
}

pub fn width_of(datatype: u8) -> usize
    ensures { result ≡ (type_of datatype).width }
{
    type_at(datatype).0
}

impl Class {
    // The class of a data type, by its code.
    pub fn of(datatype: u8) -> Class
        ensures { result ≡ (type_of datatype).class }
    {
        type_at(datatype).1
    }
}

// The class by a number: 0 for unsigned, 1 for signed, 2 for float.
pub fn class_of(datatype: u8) -> u8
    ensures { result ≡ class_number (type_of datatype).class }
{
    match Class::of(datatype) {
        Class::Unsigned => 0,
        Class::Signed => 1,
        Class::Float => 2,
    }
}
