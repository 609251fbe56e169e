// The script of a sweep, written before anything is done, or the refusal.
ghost use Rattle.sound_tables.specs.Good.{Good};
ghost use Rattle.sweep_call.specs.PlanLaws.{Ready, Written, Planned};

use crate::early::{enough, face_refusal};
use bounds::{ITEM_PLACES, MOST_ITEMS};
use layout::columns::{face_solid, loop_face, start_of, vertex_used};
use layout::shape::Shape;
use refusals::{Refusal, ensure};
use sweep_puts::faces::put_face;
use sweep_puts::free::FreeNumbers;
use sweep_reads::corners::corners_to;
use sweep_reads::free::free_numbers;
use sweeps::Vector;

// The longest script: two operators for a corner, each with an edge of its own, so 4,096 at most, of 27 bytes at most.
pub const SCRIPT_BYTES: usize = 27 * MOST_ITEMS;

// A script's length, and the bytes that the inverses of its operators take.
#[derive(Clone, Copy)]
pub struct Script {
    pub length: usize,
    pub room: usize,
}

// The script at the front of `out`, of a face that can be lifted; 10 where numbers are lacking.
fn write_script(
    links: &[u16],
    points: &[i32],
    sh: Shape,
    f: usize,
    v: Vector,
    out: &mut [u8; SCRIPT_BYTES],
) -> Result<Script, Refusal>
    requires { Ready sh links.now points.now f v }
    ensures { Written sh links.now points.now f v out.new result }
{
    let mut edges = [0u16; ITEM_PLACES];
    let mut vertices = [0u16; ITEM_PLACES];
    let mut faces = [0u16; ITEM_PLACES];
    let mut loops = [0u16; ITEM_PLACES];
    // an edge by its second half
    let ne = free_numbers(
        sh.edges as usize,
        &mut edges,
        |k| start_of(links, sh, 2 * k) == 0,
    );
    let nv = free_numbers(
        sh.vertices as usize,
        &mut vertices,
        |k| vertex_used(links, sh, k) == 0,
    );
    let nf = free_numbers(
        sh.faces as usize,
        &mut faces,
        |k| face_solid(links, sh, k) == 0,
    );
    let nl = free_numbers(
        sh.loops as usize,
        &mut loops,
        |k| loop_face(links, sh, k) == 0,
    );
    let n = corners_to(links, sh, f);
    ensure(enough(n, nv, ne, nf, nl), Refusal::NoNumberLeft)?;
    let numbers = FreeNumbers {
        edges: &edges,
        vertices: &vertices,
        faces: &faces,
        loops: &loops,
    };
    let put = put_face(links, points, sh, numbers, f, v, out);
    Ok(Script {
        length: put.at,
        room: put.room,
    })
}

// The script of a sweep of face f at the front of `out`, or its refusal: 5 and 6 for the face, 14, 5 for a moved point,
// 10; 9 where the inverses take more than `start` bytes.
pub fn plan(
    links: &[u16],
    points: &[i32],
    sh: Shape,
    start: usize,
    f: usize,
    v: Vector,
    out: &mut [u8; SCRIPT_BYTES],
) -> Result<Script, Refusal>
    requires { Good sh links.now points.now }
    ensures { Planned sh links.now points.now start f v out.new result }
{
    face_refusal(links, points, sh, f, v)?;
    let script = write_script(links, points, sh, f, v, out)?;
    ensure(script.room <= start, Refusal::LogFull)?;
    Ok(script)
}
