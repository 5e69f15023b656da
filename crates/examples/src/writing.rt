// The writer and the lister, and the writer's file of document 01's section on the lister.
use super::print;
use frame::Frame;
use std::io;

pub(crate) fn list(rt: &impl Print, file: &[u8], out: &mut [u8]) -> io::Result<()> {
    let w = edf::list(file, out);
    print::written(rt, w, out)
}

// The length of the file.
fn write(
    rt: &impl Print,
    frame: Frame,
    title: &[u8],
    pixels: &[u8],
    out: &mut [u8],
) -> io::Result<()> {
    print::column(rt)?;
    match edf::write(frame, title, pixels, out) {
        Ok(n) => print::count(rt, n),
        Err(e) => print::failure(rt, e),
    }
}

// 1.Image.Psd, UnsignedShort, HighByteFirst, 3 by 2, configuration 6: the title in value form, the file's header, and its listing.
pub(crate) fn example(
    rt: &impl Print,
    title: &[u8],
    pixels: &[u8],
    out: &mut [u8],
) -> io::Result<()> {
    println!(rt)?;
    let value = edf::escape(title, out);
    print::written(rt, value, out)?;
    let frame = Frame {
        sequence: 1,
        instance: 1,
        memory: 1,
        datatype: 3,
        byteorder: 1,
        n: 2,
        dim1: 3,
        dim2: 2,
        dim3: 0,
        configuration: 6,
    };
    write(rt, frame, title, pixels, out)?;
    print::bracketed(rt, print::first(out, 512))?;
    let mut listing = [0u8; 80];
    list(rt, out, &mut listing)?;
    println!(rt)
}
