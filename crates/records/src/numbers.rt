// The numbers of a block's row, and those of an array's description.
ghost use Rattle.std.specs.Prelude.{◌≡◌};
ghost use Rattle.origins.specs.Letter.{number_of};
ghost use Rattle.records.specs.Numbers.{bits_of, row_numbers, description_numbers};

use blocks::Row;
use description::Description;
use keyword::Origin;
use origins::letters::number_of;

// How many numbers a row of the table has, and a description with the origins of its fields.
pub const ROW: usize = 7;

pub const DESCRIPTION: usize = 17;

// Two's complement.
pub fn bits_of(z: i64) -> u64
    ensures { result ≡ bits_of z }
{
    z.cast_unsigned()
}

pub fn row_numbers(row: Row) -> [u64; ROW]
    ensures { result ≡ row_numbers row }
{
    [
        row.start as u64,
        row.header as u64,
        row.size as u64,
        row.kind as u64,
        bits_of(row.sequence),
        row.instance as u64,
        bits_of(row.memory),
    ]
}

// The number of an origin, in 64 bits.
fn origin_number(o: Origin) -> u64
    ensures { result ≡ number_of o }
{
    number_of(o) as u64
}

pub fn description_numbers(d: Description) -> [u64; DESCRIPTION]
    ensures { result ≡ description_numbers d }
{
    [
        d.datatype as u64,
        d.byteorder as u64,
        d.compression as u64,
        d.n as u64,
        d.dim1 as u64,
        d.dim2 as u64,
        d.dim3 as u64,
        d.configuration as u64,
        d.orientation as u64,
        bits_of(d.offset),
        origin_number(d.origins.datatype),
        origin_number(d.origins.byteorder),
        origin_number(d.origins.compression),
        origin_number(d.origins.dims),
        origin_number(d.origins.configuration),
        origin_number(d.origins.orientation),
        origin_number(d.origins.offset),
    ]
}
