// What a call answers that does a list of operators whole or not at all (document 02, jobs 7 and 9). The rest of this
// crate is mathematics: see specs/.

#![tactic(auto)]

// The refusal, 0 for none; with refusal 2 the broken rule; the operators done, 0 with a refusal.
#[repr(C)]
#[derive(Clone, Copy)]
pub struct DoneAnswer {
    pub refusal: u8,
    pub rule: u8,
    pub done: usize,
}
