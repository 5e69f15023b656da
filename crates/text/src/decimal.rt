// Whole numbers to text: shortest decimal form, without plus.
ghost use Rattle.std.specs.Prelude.{[], ◌≡◌, ◌<◌, ◌≤◌, ◌^◌, length, take, drop};
ghost use Rattle.scan.specs.Buffer.{length_written, buffer_after};
ghost use Rattle.text.specs.Decimal as spec;

use crate::buffer;
use crate::signed::{self, Parts};
use scan::Error;

// Puts the digits of n at the end of the 20 bytes of out, and answers where they start. The bytes before them stay. A loop by hand: `i`
// goes down as long as digits are left.
fn put_digits(n: u64, out: &mut [u8]) -> usize
    requires { (n ≤ 2 ^ 63) × (length out.old ≡ 20) }
    ensures { (0 < result) × (result < 20) × (drop result out.new ≡ spec.digits_of 19 n []) × (take result out.new ≡ take result out.old) }
{
    let mut i = 19;
    let mut rest = n;
    while rest > 9 {
        out[i] = b'0' + (rest % 10) as u8;
        rest /= 10;
        i -= 1;
    }
    out[i] = b'0' + rest as u8;
    i
}

// The same for a signed number: a minus stands before the digits of a negative one.
#[tactic(auto, unfolding(crate::specs::Decimal::decimal))]
fn put_number(n: i64, out: &mut [u8]) -> usize
    requires { length out.old ≡ 20 }
    ensures { (result < 20) × (drop result out.new ≡ spec.decimal n) × (take result out.new ≡ take result out.old) }
{
    match signed::apart(n) {
        Parts::Up(k) => put_digits(k, out),
        Parts::Down(k) => {
            let at = put_digits(k + 1, out) - 1;
            out[at] = b'-';
            at
        }
    }
}

// Puts the text of n at the end of out, and answers where it starts. The bytes before it stay.
pub fn decimal(n: i64, out: &mut [u8; 20]) -> usize
    ensures { (result < 20) × (length out.new ≡ 20) × (drop result out.new ≡ spec.decimal n) × (take result out.new ≡ take result out.old) }
{
    put_number(n, out)
}

// Writes the text of n at the front of the buffer, if it has room for it: else error 22.
pub fn write_decimal(n: i64, out: &mut [u8]) -> Result<usize, Error>
    ensures result_value { result ≡ length_written (Ok (spec.decimal n)) out.old }
    ensures out_after { out.new ≡ buffer_after (Ok (spec.decimal n)) out.old }
{
    let mut text = [0u8; 20];
    let at = decimal(n, &mut text);
    buffer::write_bytes(&text[at..], out)
}
