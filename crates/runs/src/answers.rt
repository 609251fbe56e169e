// What a run answers, and a move of operators from one log to another.
// What a run answers: the refusal, 0 for none; with refusal 2 the broken rule; the operators done, the script bytes
// they took, and the log's new start.
#[repr(C)]
#[derive(Clone, Copy)]
pub struct RunAnswer {
    pub refusal: u8,
    pub rule: u8,
    pub done: usize,
    pub used: usize,
    pub start: usize,
}

// What a move of operators from one log to another answers: the refusal, 0 for none; with refusal 2 the broken rule;
// the operators done, the place in the source behind them, and the destination's new start.
#[derive(Clone, Copy)]
pub struct MoveAnswer {
    pub refusal: u8,
    pub rule: u8,
    pub done: usize,
    pub from: usize,
    pub to: usize,
}
