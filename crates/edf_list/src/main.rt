#![tactic(auto)]

// Lists the file on its standard input. What it prints is proved (`input_listing`, of crate listing); that it is read from standard
// input and written to standard output is not.
ghost use Rattle.std.specs.Prelude.{◌≤◌, IfOk, length};

use listing::limits::{INPUT_LIMIT, LISTING_ROOM};
use std::io;
use std::io::{Input, Read};

// Reads standard input to its end or until the buffer is full: how many bytes it put at the front of the buffer. Each program that
// reads has these lines: a crate of their own would be longer.
fn read_full(rt: &impl Input, buffer: &mut [u8]) -> io::Result<usize>
    ensures { IfOk result (λ n. n ≤ length buffer.new) }
{
    let room = buffer.len();
    let mut rest = &mut buffer[..];
    io::copy(&mut rt.reader().take(room as u64), &mut rest)?;
    Ok(room.saturating_sub(rest.len()))
}

fn main(rt: HostRuntime) -> io::Result<()> {
    let mut input = [0u8; INPUT_LIMIT + 1];
    let n = read_full(&rt, &mut input)?;
    let mut out = [0u8; LISTING_ROOM];
    let length = listing::list::put_input_listing(&input[..n], &mut out);
    rt.write_all(&out[..length])
}
