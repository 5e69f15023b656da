#![tactic(auto)]

// Runs the public calls but `open` and `real` on examples of document 01, and prints tables of what they answer: a column for each call. An error is `refused`,
// its code and its position; what stands in brackets is text. `stdout` is worked out by hand from document 01. Standard input is a
// file with a block for each example of an array or a value; the other examples are made here.
mod arrays;
mod print;
mod values;
mod writing;

ghost use Rattle.std.specs.Prelude.{◌≤◌, IfOk, length};

use std::io;
use std::io::{Input, Read};

// Reads standard input to its end or until the buffer is full: how many bytes it put at the front of the buffer. Each program that
// reads has these lines: a crate of their own would be longer.
fn read_full(rt: &impl Input, buffer: &mut [u8]) -> io::Result<usize>
    ensures { IfOk result (λ n. n ≤ length buffer.new) }
{
    let room = buffer.len();
    let mut rest = &mut buffer[..];
    io::copy(&mut rt.reader().take(room as u64), &mut rest)?;
    Ok(room.saturating_sub(rest.len()))
}

// The calls on a block's array, and on a keyword's value.
fn show_block(
    rt: &impl Print,
    file: &[u8],
    block: usize,
    key: &[u8],
    out: &mut [u8],
) -> io::Result<()> {
    print!(rt; "\n {block}")?;
    arrays::describe(rt, file, block)?;
    let array = edf::read_array(file, block, 1, out);
    print::written(rt, array, out)?;
    arrays::stored_array(rt, file, block)?;
    arrays::read_pixel(rt, file, block)?;
    let value = values::find(rt, file, block, key)?;
    let unescaped = edf::unescape(edf::part(file, value), out);
    print::written(rt, unescaped, out)?;
    let text = edf::text(file, block, key, out);
    print::written(rt, text, out)?;
    values::whole_number(rt, file, block, key)
}

// The 16 blocks of the file, and a number past the last.
fn show_blocks(rt: &impl Print, file: &[u8], key: &[u8], out: &mut [u8]) -> io::Result<()> {
    for block in 0..17 {
        show_block(rt, file, block, key, out)?;
    }
    Ok(())
}

fn main(rt: HostRuntime) -> io::Result<()> {
    let mut input = [0u8; 4096];
    let n = read_full(&rt, &mut input)?;
    let file = &input[..n];
    println!(&rt;
        "block | describe | read_array | stored_array | read_pixel | find | unescape | text | whole_number\n | escape | write | list"
    )?;
    let mut out = [0u8; 8];
    show_blocks(&rt, file, b"Title", &mut out)?;
    println!(&rt)?;
    let mut written = [0u8; 1024];
    writing::example(
        &rt,
        b"x;",
        b"\0\x01\0\x02\0\x03\0\x04\0\x05\0\x06",
        &mut written,
    )
}
