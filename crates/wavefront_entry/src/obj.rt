// A solid as OBJ text, written into a lent buffer.
ghost use Rattle.std.specs.Prelude.{◌≡◌, ℕ, ◌+◌, ◌*◌, ◌≤◌, ◌<◌};
ghost use Rattle.layout.specs.Small.{Small};
ghost use Rattle.text.specs.Put.{Put};
ghost use Rattle.sound_tables.specs.Good.{Good};
ghost use Rattle.wavefront.specs.Obj.{obj_text, solid_refusal, texted, fitted, unless_refused, obj_of};
ghost use Rattle.wavefront_text.specs.LineLaws.{AllInRange, Low};
ghost use Rattle.wavefront_entry.specs.RankLaws.{Ranked};
ghost use Rattle.wavefront_entry.specs.ObjLaws.{text_by, Drawable, excess, drawn};

use crate::ranks::rank_vertices;
use crate::solid::solid_refusal;
use bounds::ITEM_PLACES;
use layout::shape::{Shape, shape_of};
use refusals::Refusal;
use table::check::check;
use wavefront::answer::TextAnswer;
use wavefront_text::lines::{put_faces, put_vertices};

// The text at the front of `out`, as far as it fits; how long it is.
fn put_text(
    out: &mut [u8],
    links: &[u16],
    points: &[i32],
    sh: Shape,
    s: usize,
    ranks: &[u16; ITEM_PLACES],
) -> usize
    requires low { Low ranks.now × Small sh }
    requires all_in_range { AllInRange points.now sh.vertices }
    ensures { Put out.old 0
        (text_by sh links.now points.now s ranks.now) result out.new }
{
    let at = put_vertices(out, points, sh.vertices as usize, ranks);
    put_faces(out, at, links, sh, s, ranks)
}

// The most bytes that the text of a solid of such a table has: 26 for a vertex, 2 for a face, 5 for a half-edge.
fn longest(sh: Shape) -> usize
    requires { Small sh }
    ensures { result ≡ 26 * sh.vertices + 2 * sh.faces + 5 * (2 * sh.edges) }
{
    26 * (sh.vertices as usize) + 2 * (sh.faces as usize) + 5 * (2 * (sh.edges as usize))
}

// How long the text is, where it is longer than `room`. It is measured in a buffer that holds one byte of it, and not
// at all where there is room for the longest.
fn overlong(
    links: &[u16],
    points: &[i32],
    sh: Shape,
    s: usize,
    ranks: &[u16; ITEM_PLACES],
    room: usize,
) -> Option<usize>
    requires { Drawable sh links.now points.now s × Ranked sh links.now s ranks.now }
    ensures { result ≡ excess (obj_text sh links.now points.now s) room }
{
    if room >= longest(sh) {
        return None;
    }
    let mut front = [0u8; 1];
    let length = put_text(&mut front, links, points, sh, s, ranks);
    if length <= room {
        return None;
    }
    Some(length)
}

// Writes a solid that is not refused: how long its text is, or that it does not fit and how long it would be.
fn write_solid(
    links: &[u16],
    points: &[i32],
    sh: Shape,
    s: usize,
    out: &mut [u8],
) -> Result<usize, (Refusal, usize)>
    requires { Drawable sh links.now points.now s }
    ensures { drawn result out.new ≡ fitted (obj_text sh links.now points.now s) out.old }
{
    let mut ranks = [0u16; ITEM_PLACES];
    rank_vertices(links, sh, s, &mut ranks);
    if let Some(length) = overlong(links, points, sh, s, &ranks, out.len()) {
        return Err((Refusal::TextTooLong, length));
    }
    Ok(put_text(out, links, points, sh, s, &ranks))
}

// Writes solid s of a good table: how long its text is, or why there is none, with the length where it does not fit.
fn draw(
    links: &[u16],
    points: &[i32],
    sh: Shape,
    s: usize,
    out: &mut [u8],
) -> Result<usize, (Refusal, usize)>
    requires { Good sh links.now points.now }
    ensures { drawn result out.new
        ≡ unless_refused (solid_refusal sh links.now s) 0 (obj_text sh links.now points.now s) out.old }
{
    match solid_refusal(links, sh, s) {
        Ok(()) => write_solid(links, points, sh, s, out),
        Err(refusal) => Err((refusal, 0)),
    }
}

// Writes solid s of a sound table: refusal 1, or 2 with the rule; 5 for no number of a solid, 6 for a free one, 12 for
// one with a ring, a lone loop or a face of under three sides, 13 where the text does not fit; else 0. The length of
// the text is answered with 0 and 13. A refusal writes nothing, and what stands behind the text stays.
pub fn obj(links: &[u16], points: &[i32], s: usize, out: &mut [u8]) -> TextAnswer
    ensures { texted result.refusal result.rule result.length out.new
        ≡ obj_of links.now points.now s out.old }
{
    let a = check(links, points);
    if a.refusal != 0 {
        return TextAnswer {
            refusal: a.refusal,
            rule: a.rule,
            length: 0,
        };
    }
    let (refusal, length) = match draw(links, points, shape_of(links), s, out) {
        Ok(length) => (0, length),
        Err((refusal, length)) => (refusal.number(), length),
    };
    TextAnswer {
        refusal,
        rule: 0,
        length,
    }
}
