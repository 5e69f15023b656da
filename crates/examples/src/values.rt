// The calls on a keyword and its value.
use super::print;
use scan::Span;
use std::io;

// Answers where the value stands too; nowhere is at 0, with no bytes.
pub(crate) fn find(rt: &impl Print, file: &[u8], block: usize, key: &[u8]) -> io::Result<Span> {
    print::column(rt)?;
    match edf::find(file, block, key) {
        Ok(p) => {
            print::count(rt, p.offset)?;
            print::bracketed(rt, edf::part(file, p))?;
            Ok(p)
        }
        Err(e) => {
            print::failure(rt, e)?;
            Ok(Span {
                offset: 0,
                length: 0,
            })
        }
    }
}

pub(crate) fn whole_number(
    rt: &impl Print,
    file: &[u8],
    block: usize,
    key: &[u8],
) -> io::Result<()> {
    print::column(rt)?;
    match edf::whole_number(file, block, key) {
        Ok(n) => print::signed(rt, n),
        Err(e) => print::failure(rt, e),
    }
}
