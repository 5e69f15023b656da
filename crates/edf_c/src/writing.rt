// Writing a file.
ghost use Rattle.std.specs.Prelude.{◌≡◌};
ghost use Rattle.scan.specs.Buffer.{length_written, buffer_after};
ghost use Rattle.frame.specs.File.{written_file, FitsFile};
ghost use Rattle.edf_c.specs.Answers.{code_of, value_after, position_after};
ghost use Rattle.edf_c.specs.Fields.{frame_of};

use crate::answers::put_written;
use frame::Frame;

// A file of one block, at the front of the lent buffer: `edf::write` of the frame with these fields.
#[unsafe(no_mangle)]
pub extern "C" fn edf_write(
    sequence: i64,
    instance: u8,
    memory: i64,
    datatype: u8,
    byteorder: u8,
    n: u8,
    dim1: usize,
    dim2: usize,
    dim3: usize,
    configuration: u32,
    title: &[u8],
    pixels: &[u8],
    out: &mut [u8],
    written: &mut usize,
    position: &mut usize,
) -> u8
    ensures value { (result ≡ code_of (length_written (written_file (frame_of sequence instance memory datatype byteorder n dim1 dim2 dim3 configuration) title.now pixels.now) out.old)) × FitsFile (frame_of sequence instance memory datatype byteorder n dim1 dim2 dim3 configuration) title.now pixels.now }
    ensures written_after { written.new ≡ value_after (length_written (written_file (frame_of sequence instance memory datatype byteorder n dim1 dim2 dim3 configuration) title.now pixels.now) out.old) written.old }
    ensures position_after { position.new ≡ position_after (length_written (written_file (frame_of sequence instance memory datatype byteorder n dim1 dim2 dim3 configuration) title.now pixels.now) out.old) position.old }
    ensures out_after { out.new ≡ buffer_after (written_file (frame_of sequence instance memory datatype byteorder n dim1 dim2 dim3 configuration) title.now pixels.now) out.old }
{
    let frame = Frame {
        sequence,
        instance,
        memory,
        datatype,
        byteorder,
        n,
        dim1,
        dim2,
        dim3,
        configuration,
    };
    let answer = edf::write(frame, title, pixels, out);
    put_written(answer, written, position)
}
