// What is answered to a call that writes a text.

#[repr(C)]
#[derive(Clone, Copy)]
pub struct TextAnswer {
    pub refusal: u8,
    pub rule: u8,
    pub length: usize,
}
