// The program without its reading and writing.
ghost use Rattle.std.specs.Prelude.{◌≡◌, ◌≤◌, length, take};
ghost use Rattle.std.proofs.lemmas.List.Edits.{sets};
ghost use Rattle.runs.specs.Run.{run_of};
ghost use Rattle.zoghvari.specs.Program.{empty, report_of, program_of};

use report::{text, too_long};
use runs_run::run;
use table::clear::clear;
use table::count::count;

// A script of at most 4,096 bytes is run.
const LONGEST: usize = 4096;
// Each capacity is 64: 5 + 64 + 2 * 64 + 3 * 64 + 8 * 64 + 64 words, and three coordinates to a vertex.
const WORDS: usize = 965;

const COORDINATES: usize = 192;

const LOG: usize = 40960;

// The script's run on an empty table, as text at the front of `out`; how long it is.
fn report_run(script: &[u8], out: &mut [u8; 256]) -> usize
    ensures value { (result ≡ length (report_of (run_of empty script.now)))
        × (out.new ≡ sets out.old 0 (report_of (run_of empty script.now))) }
    ensures upper_bound { result ≤ 256 }
{
    let mut links = [0u16; WORDS];
    let mut points = [0i32; COORDINATES];
    let mut log = [0u8; LOG];
    clear(&mut links, &mut points, 64, 64, 64, 64, 64);
    let ran = run(&mut links, &mut points, &mut log, LOG, script);
    let counts = count(&links, &points);
    text(out, ran.refusal, ran.done, ran.used, counts)
}

// What the program prints for an input of n bytes, at the front of `out`; how long it is. What stands behind it stays.
// The buffer of the input has room for one byte more than may be run: where that byte came too, the input is too long.
pub fn program(input: [u8; 4097], n: usize, out: &mut [u8; 256]) -> usize
    ensures value { (result ≡ length (program_of (take n input)))
        × (out.new ≡ sets out.old 0 (program_of (take n input))) }
    ensures upper_bound { result ≤ 256 }
{
    if n > LONGEST {
        return too_long(out);
    }
    report_run(&input[..n], out)
}
