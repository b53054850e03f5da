// Reads an input into memory of a fixed size.
#![tactic(auto)]

ghost use Rattle.std.specs.Io.{ReadsAtMost};

use std::io::{self, ErrorKind, Read};

// Reads to the end of the input or until the text is full, and answers how many bytes it read.
pub fn read_full(input: &mut impl Read, text: &mut [u8]) -> io::Result<usize>
    ensures { ReadsAtMost result text.new }
{
    let mut done = 0;
    for _ in 0..u64::MAX {
        if done >= text.len() {
            break;
        }
        match input.read(&mut text[done..]) {
            Ok(0) => break,
            Ok(n) => done += n,
            Err(e) if e.kind() == ErrorKind::Interrupted => {}
            Err(e) => return Err(e),
        }
    }
    Ok(done)
}
