#![tactic(auto)]

// Runs the public call `real` on worked examples of document 02, No. 2: the keywords `a` to `u` of the file on its standard input, and
// one that is not there. Prints the value in brackets, the unit and the bits of the float in hexadecimal; or `refused`, code and position.
// `stdout` is worked out apart, with exact fractions.
ghost use Rattle.std.specs.Prelude.{◌≤◌, IfOk, length};

use reals::Real;
use scan::Error;
use std::io;
use std::io::{Input, Read};

// Reads standard input to its end or until the buffer is full: how many bytes it put at the front of the buffer. Each program that
// reads has these lines: a crate of their own would be longer.
fn read_full(rt: &impl Input, buffer: &mut [u8]) -> io::Result<usize>
    ensures { IfOk result (λ n. n ≤ length buffer.new) }
{
    let room = buffer.len();
    let mut rest = &mut buffer[..];
    io::copy(&mut rt.reader().take(room as u64), &mut rest)?;
    Ok(room.saturating_sub(rest.len()))
}

fn bits(x: f64) -> u64 {
    if x == x { f64::to_bits(x) } else { 0 }
}

fn float(rt: &impl Print, unit: &str, x: f64) -> io::Result<()> {
    let n = bits(x);
    println!(rt; "{unit}{n:016x}")
}

fn real(rt: &impl Print, r: Real) -> io::Result<()> {
    match r {
        Real::Number(x) => float(rt, " ", x),
        Real::Metres(x) => float(rt, " m ", x),
        Real::Degrees(x) => float(rt, " deg ", x),
        Real::Radians(x) => float(rt, " rad ", x),
    }
}

fn failure(rt: &impl Print, e: Error) -> io::Result<()> {
    let Error { code, position } = e;
    println!(rt; " refused {code} {position}")
}

// The value of a keyword, if there is one.
fn value(rt: &impl Print, file: &[u8], key: &[u8]) -> io::Result<()> {
    match edf::find(file, 0, key) {
        Ok(p) => {
            print!(rt; "[")?;
            rt.write_all(edf::part(file, p))?;
            print!(rt; "]")
        }
        Err(_) => print!(rt; "none"),
    }
}

fn example(rt: &impl Print, file: &[u8], key: u8) -> io::Result<()> {
    let name = [key];
    value(rt, file, &name)?;
    match edf::real(file, 0, &name) {
        Ok(r) => real(rt, r),
        Err(e) => failure(rt, e),
    }
}

fn examples(rt: &impl Print, file: &[u8]) -> io::Result<()> {
    for key in b'a'..b'w' {
        example(rt, file, key)?;
    }
    Ok(())
}

fn main(rt: HostRuntime) -> io::Result<()> {
    let mut input = [0u8; 1024];
    let n = read_full(&rt, &mut input)?;
    examples(&rt, &input[..n])
}
