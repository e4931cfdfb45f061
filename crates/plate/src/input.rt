// Reads a line, and nothing behind it.
ghost use Rattle.std.specs.Prelude.{ℕ, Option as Given};
ghost use Rattle.plate.specs.Input.{Took};

use arrayvec::ArrayVec;
use std::io::Read;
use std::rt::Stdin;

// Where bytes come from, one at a time.
pub trait Source {
    // A call at the first source gave a byte, or `None` at the end of the input, and left the second.
    ghost gives: { Self → Given ℕ → Self → Type 0 };

    fn next_byte(&mut self) -> Option<u8>
        ensures { gives self.old result self.new };
}

// Nothing is known of what comes from outside. A read that fails counts as the end of the input.
impl Source for Stdin {
    ghost gives = { λ _ _ _. Unit {0} };

    fn next_byte(&mut self) -> Option<u8> {
        let mut byte = [0];
        match self.read(&mut byte) {
            Ok(1) => Some(byte[0]),
            _ => None,
        }
    }
}

// One byte more than the longest line that is not refused for its form.
const ROOM: usize = 17;

// Reads the bytes of a line: up to a newline, the end of the input or `ROOM` bytes, so that it waits for nothing behind the newline.
pub fn read_line<S: Source>(input: &mut S) -> ArrayVec<u8, ROOM>
    ensures { Took S.gives input.old result.items input.new }
{
    let mut line = ArrayVec::new();
    while !line.is_full() {
        match input.next_byte() {
            None | Some(b'\n') => break,
            Some(byte) => line.push(byte),
        }
    }
    line
}
