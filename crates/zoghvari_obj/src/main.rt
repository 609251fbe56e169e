// Reads a script from standard input, runs it on an empty table and prints the part that it built as OBJ text.

#![tactic(auto)]

mod program;

use program::{LONGEST, ROOM};
use report::input::read_full;
use std::io;

// A read that fails counts as the end of the input: what came before it is run. A write that fails is main's error. The
// buffer has room for one byte more than may be run: where that byte came too, the input is too long.
fn main(rt: HostRuntime) -> io::Result<()> {
    let mut input = [0u8; LONGEST + 1];
    let mut out = [0u8; ROOM];
    print_part(rt, &mut input, &mut out)
}

// The part that the input builds, printed: the buffers are the caller's, so that no proof here looks into them.
fn print_part(rt: HostRuntime, input: &mut [u8], out: &mut [u8; ROOM]) -> io::Result<()> {
    let (n, _) = read_full(&mut rt.stdin(), input);
    let length = program::program(&input[..n], out);
    rt.write_all(&out[..length])
}
