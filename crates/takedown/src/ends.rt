// What is carried from turn to turn, so that most searches go on from a lower end: a number below which the search
// finds nothing. (The two of A are 1 again after a turn that moved rings; free numbers are always sought from 1.)
#[derive(Clone, Copy)]
pub struct Ends {
    // The solid at hand, 0 where none is left; its root; how many faces it has.
    pub solid: usize,
    pub root: usize,
    pub faces: usize,
    // A: lower ends of the half-edges outside the root with their mate in it, and of the loops that are rings of
    // another face of the solid than the root.
    pub border: usize,
    pub stray: usize,
    // B: lower ends of the half-edges of the solid, and of those in a ring with their mate in another loop.
    pub half: usize,
    pub ring: usize,
    // 1 after kemr: the ring turn to come leaves no half-edge in a ring with its mate in another loop.
    pub pair: usize,
    // No half-edge below `spur` is followed by its mate, but perhaps the four tips: the places at which edges were
    // taken out.
    pub spur: usize,
    pub tip: usize,
    pub tip2: usize,
    pub tip3: usize,
    pub tip4: usize,
    // Lower end of the half-edges that another edge crosses.
    pub cross: usize,
    // C: lower end of the rings of the root.
    pub lone: usize,
}
