// Text in value form, and back.
ghost use Rattle.std.specs.Prelude.{◌≡◌};
ghost use Rattle.scan.specs.Buffer.{length_written, buffer_after};
ghost use Rattle.text.specs.Text.{escaped, unescaped};
ghost use Rattle.edf_c.specs.Answers.{code_of, value_after, position_after};

use crate::answers::put_written;

// Text in value form, at the front of the lent buffer: `edf::escape`.
#[unsafe(no_mangle)]
pub extern "C" fn edf_escape(
    bytes: &[u8],
    out: &mut [u8],
    written: &mut usize,
    position: &mut usize,
) -> u8
    ensures value { result ≡ code_of (length_written (escaped bytes.now) out.old) }
    ensures written_after { written.new ≡ value_after (length_written (escaped bytes.now) out.old) written.old }
    ensures position_after { position.new ≡ position_after (length_written (escaped bytes.now) out.old) position.old }
    ensures out_after { out.new ≡ buffer_after (escaped bytes.now) out.old }
{
    let answer = edf::escape(bytes, out);
    put_written(answer, written, position)
}

// The text of a value, at the front of the lent buffer: `edf::unescape`.
#[unsafe(no_mangle)]
pub extern "C" fn edf_unescape(
    value: &[u8],
    out: &mut [u8],
    written: &mut usize,
    position: &mut usize,
) -> u8
    ensures value { result ≡ code_of (length_written (unescaped value.now) out.old) }
    ensures written_after { written.new ≡ value_after (length_written (unescaped value.now) out.old) written.old }
    ensures position_after { position.new ≡ position_after (length_written (unescaped value.now) out.old) position.old }
    ensures out_after { out.new ≡ buffer_after (unescaped value.now) out.old }
{
    let answer = edf::unescape(value, out);
    put_written(answer, written, position)
}
