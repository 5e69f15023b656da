// Parts of a line, each after a space.
use scan::{Error, Span};
use std::io;

// Starts a column.
pub(crate) fn column(rt: &impl Print) -> io::Result<()> {
    print!(rt; " |")
}

pub(crate) fn count(rt: &impl Print, n: usize) -> io::Result<()> {
    print!(rt; " {n}")
}

// A column of three numbers.
pub(crate) fn three(rt: &impl Print, a: usize, b: usize, c: usize) -> io::Result<()> {
    print!(rt; " | {a} {b} {c}")
}

pub(crate) fn bracketed(rt: &impl Print, w: &[u8]) -> io::Result<()> {
    print!(rt; " [")?;
    rt.write_all(w)?;
    print!(rt; "]")
}

pub(crate) fn failure(rt: &impl Print, e: Error) -> io::Result<()> {
    let Error { code, position } = e;
    print!(rt; " refused {code} {position}")
}

// The first n bytes.
pub(crate) fn first(s: &[u8], n: usize) -> &[u8] {
    edf::part(
        s,
        Span {
            offset: 0,
            length: n,
        },
    )
}

// A column with what a call has written at the front of a buffer, as text.
pub(crate) fn written(rt: &impl Print, w: Result<usize, Error>, out: &[u8]) -> io::Result<()> {
    column(rt)?;
    match w {
        Ok(n) => bracketed(rt, first(out, n)),
        Err(e) => failure(rt, e),
    }
}

fn decimal(rt: &impl Print, n: i64, out: &mut [u8]) -> io::Result<()> {
    print!(rt; " ")?;
    match text::decimal::write_decimal(n, out) {
        Ok(k) => rt.write_all(first(out, k)),
        Err(e) => failure(rt, e),
    }
}

pub(crate) fn signed(rt: &impl Print, n: i64) -> io::Result<()> {
    let mut out = [0u8; 20];
    decimal(rt, n, &mut out)
}
