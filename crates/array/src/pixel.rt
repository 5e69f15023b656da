// One pixel of a block's array, from its data.
ghost use Rattle.std.specs.Prelude.{◌≡◌, true, ◌+◌, ◌*◌, ◌^◌, ◌<◌, ◌≤◌, length, take, drop};
ghost use Rattle.raster.specs.Axis.{order_of};
ghost use Rattle.raster.specs.Element.{half, signed_of, element_bits};
ghost use Rattle.raster.specs.Pixels.{pixel_of};
ghost use Rattle.raster.specs.Strided.{Width, place_of};
ghost use Rattle.raster.specs.Strides.{steps_of};
ghost use Rattle.raster.specs.Types.{type_of};
ghost use Rattle.description.specs.Shape.{array_type};
ghost use Rattle.description.specs.Valid.{ValidArray};
ghost use Rattle.array.specs.Delivery.{is_index, pixel_at, stored_element};

use delivery::arrays::deliver;
use description::Description;
use raster::Pixel;
use raster::stride::{Steps, steps_of};
use raster::types::{Class, width_of};
use std::num::{f32_from_bits_with_nan, f64_from_bits_with_nan};
use strides::places::spot;

// Half of the numbers of w bytes.
fn half_of(w: usize) -> u64
    requires { Width w }
    ensures { result ≡ half w }
{
    1 << (8 * w - 1)
}

// Two's complement, where `h` is half of the numbers.
fn signed_of(n: u64, h: u64) -> i64
    requires { (n < 2 * h) × (h ≤ 2 ^ 63) }
    ensures { result ≡ signed_of h n }
{
    if n < h {
        n as i64
    } else {
        -1 - (h - 1 - (n - h)) as i64
    }
}

// The value that the bits of an element stand for.
fn pixel_by(datatype: u8, n: u64) -> Pixel
    requires { n < 256 ^ (type_of datatype).width }
    ensures { result ≡ pixel_of (type_of datatype).class (type_of datatype).width n }
{
    let width = width_of(datatype);
    match Class::of(datatype) {
        Class::Unsigned => Pixel::Unsigned(n),
        Class::Signed => Pixel::Signed(signed_of(n, half_of(width))),
        Class::Float if width == 4 => Pixel::Float32(f32_from_bits_with_nan(n as u32)),
        Class::Float => Pixel::Float64(f64_from_bits_with_nan(n)),
    }
}

// The offset of the element at an index.
fn place_of(src: &[u8], d: Description, i1: usize, i2: usize, i3: usize) -> usize
    requires valid_array { ValidArray d (length src.now) }
    requires index { is_index d i1 i2 i3 ≡ true }
    ensures value { result ≡ place_of (steps_of (array_type d).width (order_of 3 d.configuration) d.dim1 d.dim2 d.dim3) i1 i2 i3 }
    ensures element { take (array_type d).width (drop result src.now) ≡ stored_element d src.now i1 i2 i3 }
    ensures inside { result + (array_type d).width ≤ length src.now }
{
    let width = width_of(d.datatype);
    let steps = steps_of(width, d.configuration, d.dim1, d.dim2, d.dim3);
    let plane = spot(steps.at, steps.up3, steps.down3, i3, 0, src.len());
    let row = spot(plane, steps.up2, steps.down2, i2, 0, src.len());
    spot(row, steps.up1, steps.down1, i1, width, src.len())
}

// The steps of an element that stands alone.
const ALONE: Steps = Steps {
    at: 0,
    up1: 0,
    down1: 0,
    up2: 0,
    down2: 0,
    up3: 0,
    down3: 0,
};

// The bits of the element at an offset: delivered low byte first in front of zeros, it is their number.
fn bits_of(src: &[u8], d: Description, at: usize) -> u64
    requires { at + (array_type d).width ≤ length src.now }
    ensures value { result ≡ element_bits (array_type d) d.byteorder d.offset (take (array_type d).width (drop at src.now)) }
    ensures upper_bound { result < 256 ^ (array_type d).width }
{
    let mut bytes = [0u8; 8];
    deliver(
        src,
        d.datatype,
        d.byteorder,
        d.offset,
        2,
        Steps { at, ..ALONE },
        1,
        1,
        1,
        &mut bytes,
    );
    u64::from_le_bytes(bytes)
}

#[tactic(auto, unfolding(crate::specs::Delivery::is_index))]
pub fn is_index(d: Description, i1: usize, i2: usize, i3: usize) -> bool
    ensures { result ≡ is_index d i1 i2 i3 }
{
    i1 < d.dim1 && i2 < d.dim2 && i3 < d.dim3
}

// The pixel at an index.
pub fn pixel_of(src: &[u8], d: Description, i1: usize, i2: usize, i3: usize) -> Pixel
    requires valid_array { ValidArray d (length src.now) }
    requires i3_value { is_index d i1 i2 i3 ≡ true }
    ensures { result ≡ pixel_at d src.now i1 i2 i3 }
{
    let at = place_of(src, d, i1, i2, i3);
    pixel_by(d.datatype, bits_of(src, d, at))
}
