// Reads a script from standard input, runs it on an empty table and prints two lines about it.

#![tactic(auto)]

mod program;

use report::input::read_full;
use std::io;

// A read that fails counts as the end of the input: what came before it is run. A write that fails is main's error.
fn main(rt: HostRuntime) -> io::Result<()> {
    let mut input = [0u8; 4097];
    let (n, _) = read_full(&mut rt.stdin(), &mut input);
    let mut out = [0u8; 256];
    let length = program::program(input, n, &mut out);
    rt.write_all(&out[..length])
}
