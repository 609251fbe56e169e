// Refusals 6 and 7: an old item is free, a new number is in use. One table of operand kinds says which is asked of
// which operand.
ghost use Rattle.std.specs.Prelude.{◌≡◌, ℕ, ◌≤◌, ◌<◌, get_or};
ghost use Rattle.bounds.specs.Bounds.{most_halves};
ghost use Rattle.refusals.specs.Numbers.{refusal_in};
ghost use Rattle.euler.specs.Exec.{use_word, use_refusal, when_free, when_used};

use layout::columns::{face_solid, loop_face, solid_used, start_of, vertex_used};
use layout::shape::Shape;
use refusals::Refusal;

// The word that tells whether item n of an operand's kind is in use; a new edge by its second half.
fn use_word(links: &[u16], sh: Shape, kind: usize, n: usize) -> usize
    requires { n ≤ most_halves }
    ensures { result ≡ use_word sh links.now kind n }
{
    match kind {
        1 | 2 | 3 => solid_used(links, sh, n),
        4 | 5 => face_solid(links, sh, n),
        6 | 7 => loop_face(links, sh, n),
        8 => start_of(links, sh, 2 * n),
        9 | 10 => start_of(links, sh, n),
        11 => vertex_used(links, sh, n),
        _ => 0,
    }
}

// The refusal of a kind whose item is free: the kinds that name an old item.
fn when_free(kind: usize) -> Result<(), Refusal>
    ensures { refusal_in result ≡ get_or when_free kind 0 }
{
    match kind {
        1 | 4 | 6 | 9 | 10 => Err(Refusal::ItemFree),
        _ => Ok(()),
    }
}

// The refusal of a kind whose item is in use: the kinds that name a new one.
fn when_used(kind: usize) -> Result<(), Refusal>
    ensures { refusal_in result ≡ get_or when_used kind 0 }
{
    match kind {
        2 | 3 | 5 | 7 | 8 | 11 => Err(Refusal::ItemUsed),
        _ => Ok(()),
    }
}

// The refusal of operand n of a kind: an old item is free, a new number is in use. An operand 0 names no item.
pub fn use_refusal(links: &[u16], sh: Shape, kind: usize, n: usize) -> Result<(), Refusal>
    requires { n ≤ most_halves }
    ensures { refusal_in result ≡ use_refusal sh links.now kind n }
{
    if n == 0 {
        return Ok(());
    }
    let word = use_word(links, sh, kind, n);
    if word == 0 {
        return when_free(kind);
    }
    when_used(kind)
}
