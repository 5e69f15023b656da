// The data of a written file.
ghost use Rattle.std.specs.Prelude.{◌≡◌, true, ◌+◌, ◌*◌, ◌≤◌, length};
ghost use Rattle.raster.specs.Position.{product};
ghost use Rattle.raster.specs.Types.{type_of};
ghost use Rattle.append.specs.Append.{HasRoom, AppendedWithin};
ghost use Rattle.frame.specs.File.{frame_dims, frame_allowed, stored_pixels, file_data};

use crate::order::walk_of;
use append::appender::Appender;
use delivery::arrays::deliver;
use frame::Frame;
use frame::dims::shape_of;
use raster::types::width_of;
use rendering::filling::filling;

// The pixels as the configuration stores them, in the frame's byte order.
fn put_pixels(f: Frame, pixels: &[u8], out: &mut Appender<'_>)
    requires f_value { (frame_allowed f ≡ true) × (length pixels.now ≡ product (frame_dims f) * (type_of f.datatype).width) }
    requires room { HasRoom (length pixels.now) out.old }
    ensures { AppendedWithin (length pixels.now) (stored_pixels f pixels.now) out.old out.new }
{
    let walk = walk_of(f.configuration, shape_of(f), width_of(f.datatype));
    deliver(
        pixels,
        f.datatype,
        1,
        0,
        f.byteorder,
        walk.steps,
        walk.dim1,
        walk.dim2,
        walk.dim3,
        &mut out.bytes[out.at..],
    );
    out.at += pixels.len();
}

// With zero bytes to a multiple of 512.
pub fn put_data(f: Frame, pixels: &[u8], out: &mut Appender<'_>)
    requires f_value { (frame_allowed f ≡ true) × (length pixels.now ≡ product (frame_dims f) * (type_of f.datatype).width) }
    requires room { HasRoom (length (file_data f pixels.now)) out.old }
    ensures { AppendedWithin (length (file_data f pixels.now)) (file_data f pixels.now) out.old out.new }
{
    put_pixels(f, pixels, out);
    out.append_repeated(0, filling(pixels.len()));
}
