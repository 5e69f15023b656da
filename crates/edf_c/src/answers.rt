// The answer of a call, as a code and lent rooms.
ghost use Rattle.std.specs.Prelude.{◌≡◌};
ghost use Rattle.edf_c.specs.Answers.{code_of, value_after, position_after};

use scan::Error;

// An error: its code, and its position in the room for it.
pub fn put_error(e: Error, position: &mut usize) -> u8
    ensures code { result ≡ e.code }
    ensures position_after { position.new ≡ e.position }
{
    *position = e.position;
    e.code
}

// An answer: 0 with the value in the room for it, or the error.
pub fn put<T: Copy>(answer: Result<T, Error>, room: &mut T, position: &mut usize) -> u8
    ensures code { result ≡ code_of answer }
    ensures room_after { room.new ≡ value_after answer room.old }
    ensures position_after { position.new ≡ position_after answer position.old }
{
    match answer {
        Ok(value) => {
            *room = value;
            0
        }
        Err(e) => put_error(e, position),
    }
}

// The answer of a call that writes into a lent buffer: how many bytes, or the error.
pub fn put_written(answer: Result<usize, Error>, written: &mut usize, position: &mut usize) -> u8
    ensures value { result ≡ code_of answer }
    ensures written_after { written.new ≡ value_after answer written.old }
    ensures position_after { position.new ≡ position_after answer position.old }
{
    put(answer, written, position)
}
