// Bytes laid over the front of a lent buffer.
ghost use Rattle.std.specs.Prelude.{◌≡◌};
ghost use Rattle.scan.specs.Buffer.{length_written, buffer_after};
ghost use Rattle.scan.specs.Outcome.{refused};

use scan::Error;

// The error with a code, at position 0.
pub fn failure(code: u8) -> Result<usize, Error>
    ensures { result ≡ refused code 0 }
{
    Err(Error { code, position: 0 })
}

// Writes the bytes at the front of the buffer, if it has room for all of them: else error 22.
#[tactic(auto, unfolding(scan::specs::Buffer::length_written, scan::specs::Buffer::buffer_after))]
pub fn write_bytes(bytes: &[u8], out: &mut [u8]) -> Result<usize, Error>
    ensures result_value { result ≡ length_written (Ok bytes.now) out.old }
    ensures out_after { out.new ≡ buffer_after (Ok bytes.now) out.old }
{
    let n = bytes.len();
    if out.len() < n {
        return failure(22);
    }
    out[..n].copy_from_slice(bytes);
    Ok(n)
}
