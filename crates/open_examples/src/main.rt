#![tactic(auto)]

// Runs the public call `open` on worked examples of documents 01 and 02, No. 4, and prints a line for each: the number of blocks, or
// `refused`, code and position; then start, header length and data size in the first and in the last row of the table, which held 7
// everywhere. `stdout` is worked out by hand from the documents.
mod lend;

use blocks::Row;
use lend::{Held, open_held};
use scan::{Error, Span};
use std::io;

fn failure(rt: &impl Print, e: Error) -> io::Result<()> {
    let Error { code, position } = e;
    print!(rt; " refused {code} {position}")
}

fn place(rt: &impl Print, row: Row) -> io::Result<()> {
    let Row {
        start,
        header,
        size,
        ..
    } = row;
    print!(rt; " | {start} {header} {size}")
}

fn open(rt: &impl Print, file: &[u8]) -> io::Result<()> {
    let filling = Row {
        start: 7,
        header: 7,
        size: 7,
        kind: 7,
        sequence: 7,
        instance: 7,
        memory: 7,
    };
    let Held { rows, answer } = open_held(file, filling);
    match answer {
        Ok(n) => print!(rt; " {n}")?,
        Err(e) => failure(rt, e)?,
    }
    place(rt, rows[0])?;
    place(rt, rows[255])?;
    println!(rt)
}

fn open_first(rt: &impl Print, s: &[u8; 66048], n: usize) -> io::Result<()> {
    open(
        rt,
        edf::part(
            s,
            Span {
                offset: 0,
                length: n,
            },
        ),
    )
}

// A file of kind 1 of one header, which is closed at offset `at`.
fn closed_at(rt: &impl Print, at: usize) -> io::Result<()> {
    let mut s = [b' '; 66048];
    if at > 66046 {
        return Ok(());
    }
    s[0] = b'{';
    s[at] = b'}';
    s[at + 1] = b'\n';
    open_first(rt, &s, at + 2)
}

// Headers on both sides of 512 and of 65,536 bytes.
fn lengths(rt: &impl Print) -> io::Result<()> {
    closed_at(rt, 510)?;
    closed_at(rt, 509)?;
    closed_at(rt, 65534)?;
    closed_at(rt, 66046)
}

// Whitespace around blocks, of kind 1 and of kind 2.
fn whitespace(rt: &impl Print) -> io::Result<()> {
    open(rt, b" {}\n\t{Size=1;}\n. ")?;
    open(rt, b" \n ")?;
    open(rt, b"{}\n x")?;
    open(rt, b" {EDF_DataBlockID=1.Image.Psd;}\n")?;
    open(rt, b"\r\n{EDF_x=;}\n")
}

fn main(rt: HostRuntime) -> io::Result<()> {
    open(&rt, b"{Size=3;}\nabc")?;
    open(&rt, b"{Size=3;}\nab")?;
    open(&rt, b"")?;
    open(&rt, b"{EDF_DataBlockID=1.Image.Psd.1;}\n")?;
    open(&rt, b"{EDF_DataBlockID=1.Image.Psd;}\n")?;
    lengths(&rt)?;
    whitespace(&rt)
}
