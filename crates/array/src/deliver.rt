// The delivery of a block's array from its data.
ghost use Rattle.std.specs.Prelude.{◌≡◌, ◌*◌, ◌≤◌, length};
ghost use Rattle.scan.specs.Buffer.{over};
ghost use Rattle.raster.specs.Position.{product};
ghost use Rattle.description.specs.Shape.{array_type, array_dims};
ghost use Rattle.description.specs.Valid.{ValidArray};
ghost use Rattle.array.specs.Delivery.{is_order, delivered};

use delivery::arrays::deliver;
use description::Description;
use raster::stride::steps_of;
use raster::types::width_of;

// Whether a number is the code of a byte order.
#[tactic(auto, unfolding(crate::specs::Delivery::is_order))]
pub fn is_order(asked: u8) -> bool
    ensures { result ≡ is_order asked }
{
    matches!(asked, 1 | 2)
}

// How many bytes delivery writes.
pub fn array_length(src: &[u8], d: Description) -> usize
    requires { ValidArray d (length src.now) }
    ensures { result ≡ product (array_dims d) * (array_type d).width }
{
    width_of(d.datatype) * d.dim1 * d.dim2 * d.dim3
}

// The array in the byte order asked for, at the front of `out`. What follows there stays.
pub fn deliver_array(src: &[u8], d: Description, asked: u8, out: &mut [u8])
    requires valid_array { ValidArray d (length src.now) }
    requires d_in_bounds { product (array_dims d) * (array_type d).width ≤ length out.old }
    ensures { out.new ≡ over (delivered d asked src.now) out.old }
{
    if d.dim1 == 0 {
        return;
    }
    let width = width_of(d.datatype);
    let steps = steps_of(width, d.configuration, d.dim1, d.dim2, d.dim3);
    deliver(
        src,
        d.datatype,
        d.byteorder,
        d.offset,
        asked,
        steps,
        d.dim1,
        d.dim2,
        d.dim3,
        out,
    );
}
