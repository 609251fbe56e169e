// The program without its reading and writing.
ghost use Rattle.std.specs.Prelude.{◌≡◌, ◌≤◌, length};
ghost use Rattle.std.proofs.lemmas.List.Edits.{sets};
ghost use Rattle.sound_tables.specs.Good.{Good};
ghost use Rattle.runs.specs.Run.{run_of};
ghost use Rattle.text.specs.Put.{Put};
ghost use Rattle.zoghvari_obj.specs.Program.{empty, refusal_line, part_text, run_text, program_of};
ghost use Rattle.zoghvari_obj.specs.ProgramLaws.{own_shape};

use layout::columns::solid_used;
use layout::shape::shape_of;
use report::{put_bytes, put_field};
use runs_run::run;
use table::clear::clear;
use takedown_search::seek::seek;
use wavefront_entry::obj::obj;

// A script of at most 65,536 bytes is run.
pub const LONGEST: usize = 65536;
// Each capacity is 1,024: 5 + 1024 + 2 * 1024 + 3 * 1024 + 8 * 1024 + 1024 words, and three coordinates to a vertex.
const CAPACITY: u16 = 1024;

const WORDS: usize = 15365;

const COORDINATES: usize = 3072;

const LOG: usize = 655360;
// The most that the text of such a table can have: 26 bytes for a vertex, 2 for a face and 5 for a half-edge.
pub const ROOM: usize = 38912;

// The line on a refusal, at the front of `out`; how long it is.
fn put_refusal(out: &mut [u8; ROOM], refusal: u8) -> usize
    ensures put { Put out.old 0 (refusal_line refusal) result out.new }
    ensures upper_bound { result ≤ 38912 }
{
    let at = put_field(out, 0, b"# refusal ", refusal as usize);
    put_bytes(out, at, b"\n")
}

// The least solid in use of a table as text, at the front of `out`; how long it is.
fn put_part(links: &[u16], points: &[i32], out: &mut [u8; ROOM]) -> usize
    requires { Good own_shape links.now points.now }
    ensures put { Put out.old 0 (part_text links.now points.now) result out.new }
    ensures upper_bound { result ≤ 38912 }
{
    let sh = shape_of(links);
    let s = seek(1, sh.solids as usize, |k| solid_used(links, sh, k) != 0);
    let a = obj(links, points, s, out);
    if a.refusal != 0 {
        return put_refusal(out, a.refusal);
    }
    a.length
}

// What a script builds on an empty table as text, at the front of `out`; how long it is. The memory is the caller's,
// whatever it holds, so that the proof does not look into it.
fn put_run_in(
    links: &mut [u16; WORDS],
    points: &mut [i32; COORDINATES],
    log: &mut [u8; LOG],
    script: &[u8],
    out: &mut [u8; ROOM],
) -> usize
    ensures put { Put out.old 0 (run_text (run_of empty script.now)) result out.new }
    ensures upper_bound { result ≤ 38912 }
{
    clear(
        links, points, CAPACITY, CAPACITY, CAPACITY, CAPACITY, CAPACITY,
    );
    let ran = run(links, points, log, LOG, script);
    if ran.refusal != 0 {
        return put_refusal(out, ran.refusal);
    }
    put_part(links, points, out)
}

// The same on memory of its own.
fn put_run(script: &[u8], out: &mut [u8; ROOM]) -> usize
    ensures put { Put out.old 0 (run_text (run_of empty script.now)) result out.new }
    ensures upper_bound { result ≤ 38912 }
{
    let mut links = [0u16; WORDS];
    let mut points = [0i32; COORDINATES];
    let mut log = [0u8; LOG];
    put_run_in(&mut links, &mut points, &mut log, script, out)
}

// What the program prints for an input, at the front of `out`; how long it is. What stands behind it stays.
pub fn program(input: &[u8], out: &mut [u8; ROOM]) -> usize
    ensures value { (result ≡ length (program_of input.now))
        × (out.new ≡ sets out.old 0 (program_of input.now)) }
    ensures upper_bound { result ≤ 38912 }
{
    if input.len() > LONGEST {
        return put_bytes(out, 0, b"# input too long\n");
    }
    put_run(input, out)
}
