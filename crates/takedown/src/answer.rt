// What the take-down answers: the refusal, 0 for none; with refusal 2 the broken rule; the operators done and the
// log's new start.
#[repr(C)]
#[derive(Clone, Copy)]
pub struct InvertAnswer {
    pub refusal: u8,
    pub rule: u8,
    pub done: usize,
    pub start: usize,
}
