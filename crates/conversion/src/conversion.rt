// How every element of an array is made, settled once for all of them.
ghost use Rattle.std.specs.Prelude.{◌≡◌, cond, ◌-◌, ◌^◌};
ghost use Rattle.raster.specs.Strided.{Width};
ghost use Rattle.raster.specs.Types.{type_of};
ghost use Rattle.shift.specs.Shifting.{weight, integer, Shifts};
ghost use Rattle.conversion.specs.Converting.{differ, Converts};

use raster::types::{class_of, width_of};
use shift::shift::{Addition, Shift};

// What is done with the bytes of an element: none, they are reversed, or an offset is added.
#[derive(Clone, Copy)]
pub enum Way {
    Kept,
    Reversed,
    Added(Addition),
}

// Elements of `width` bytes, and what is done with each.
#[derive(Clone, Copy)]
pub struct Conversion {
    pub width: usize,
    pub way: Way,
}

// The weight of an element at the high end of 64 bits.
fn weight_of(w: usize) -> u64
    requires { Width w }
    ensures { result ≡ weight w }
{
    1 << (64 - 8 * w)
}

// What a shift inverts: the sign bit of signed values; to go down, all bits but that.
fn inverted_bits(signed: bool, down: bool) -> u64
    ensures { result ≡ cond down (2 ^ 64 - 1 - cond signed (2 ^ 63) 0) (cond signed (2 ^ 63) 0) }
{
    let sign = if signed { 0x8000_0000_0000_0000 } else { 0 };
    if down { !sign } else { sign }
}

fn shift_of(offset: i64, signed: bool, w: usize) -> Shift
    requires { Width w }
    ensures { Shifts (integer signed) w offset result }
{
    let weight = weight_of(w);
    let most = u64::MAX / weight;
    let delta = offset.unsigned_abs().min(most) * weight;
    Shift {
        inverted: inverted_bits(signed, offset < 0),
        high: most * weight - delta,
        delta,
    }
}

// Whether one of the orders is the high byte first and the other is not.
fn orders_differ(order: u8, asked: u8) -> bool
    ensures { result ≡ differ order asked }
{
    (order == 1) != (asked == 1)
}

pub fn conversion_of(datatype: u8, order: u8, offset: i64, asked: u8) -> Conversion
    ensures { Converts (type_of datatype) order offset asked result }
{
    let width = width_of(datatype);
    let class = class_of(datatype);
    let way = if class != 2 && offset != 0 {
        let shift = shift_of(offset, class == 1, width);
        Way::Added(Addition {
            order,
            asked,
            shift,
        })
    } else if width > 1 && orders_differ(order, asked) {
        Way::Reversed
    } else {
        Way::Kept
    };
    Conversion { width, way }
}
