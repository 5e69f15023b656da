// The calls on a block's array.
use super::print;
use raster::Pixel;
use std::io;

// The Dims.
pub(crate) fn describe(rt: &impl Print, file: &[u8], block: usize) -> io::Result<()> {
    match edf::describe(file, block) {
        Ok(d) => print::three(rt, d.dim1, d.dim2, d.dim3),
        Err(e) => {
            print::column(rt)?;
            print::failure(rt, e)
        }
    }
}

// The bytes of the array where they stand in the file, if they stand there as they are delivered.
pub(crate) fn stored_array(rt: &impl Print, file: &[u8], block: usize) -> io::Result<()> {
    print::column(rt)?;
    match edf::stored_array(file, block, 1) {
        Ok(a) => {
            if a.delivered {
                print::bracketed(rt, edf::part(file, a.span))?;
            }
            Ok(())
        }
        Err(e) => print::failure(rt, e),
    }
}

// The pixel at index 0, 1, 0; of a float nothing is printed.
pub(crate) fn read_pixel(rt: &impl Print, file: &[u8], block: usize) -> io::Result<()> {
    print::column(rt)?;
    match edf::read_pixel(file, block, 0, 1, 0) {
        Ok(Pixel::Unsigned(n)) => print!(rt; " {n}"),
        Ok(Pixel::Signed(z)) => print::signed(rt, z),
        Ok(Pixel::Float32(_) | Pixel::Float64(_)) => Ok(()),
        Err(e) => print::failure(rt, e),
    }
}
