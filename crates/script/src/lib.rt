// The script of a case: its constraints as SMT-LIB text, and what the calls that write it answer (specs/).
#![tactic(auto)]

// The answer in the document's numbers, as C has it: the refusal (0: none) and its place; else how many bytes the text has.
#[repr(C)]
#[derive(Clone, Copy)]
pub struct TextNumbers {
    pub refusal: u16,
    pub place: u16,
    pub bytes: usize,
}
