// How a program reads its input.
ghost use Rattle.std.specs.Prelude.{◌≡◌, ◌<◌, OnOk, length, take};
ghost use Rattle.std.specs.Io.KnownBytes.{Consumes, IsAtEnd};
ghost use Rattle.io.specs.Counts.{IsPrefixLen};

use std::io::{Read, Result};

// Reads until the buffer is full, the input ends or a read fails, however small the pieces in which the input comes.
// The answer is how many bytes it put at the front of the buffer, and the error of the read that failed. They are what
// the reader gave, in order, and it gave no others.
pub fn read_full<R: Read>(reader: &mut R, buf: &mut [u8]) -> (usize, Result<()>)
    ensures in_bounds { IsPrefixLen result.0 buf.new }
    ensures same_length { length buf.new ≡ length buf.old }
    ensures bytes { Consumes (R.remaining reader.old) (R.remaining reader.new) (take result.0 buf.new) }
    ensures whole { OnOk result.1 (result.0 < length buf.new → IsAtEnd (R.remaining reader.new)) }
{
    let mut done = 0;
    // Kept: no index is counted: each read moves on by as much as it gave.
    while done < buf.len() {
        match reader.read(&mut buf[done..]) {
            Ok(0) => break,
            Ok(n) => done += n,
            Err(e) => return (done, Err(e)),
        }
    }
    (done, Ok(()))
}
