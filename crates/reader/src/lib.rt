// Refusals 2 to 6 (document 01, "Judging order"; document 02, request [3]), over the words of a file.
#![tactic(auto)]

pub mod word; // word.rt: the word that is due at a place
pub mod leaf; // leaf.rt: operands of one word
pub mod expression; // expression.rt: the three sorts of expressions
pub mod command; // command.rt: commands
pub mod set; // set.rt: members and sets
pub mod evidence; // evidence.rt: evidence
pub mod program; // program.rt: a program, with its contract and evidence
pub mod file; // file.rt: a whole file

// The word that is due at a place: its kind and payload, the place past it and the levels left below it.
#[derive(Clone, Copy, Debug, PartialEq, Eq)]
pub struct FirstWord {
    pub kind: u32,
    pub payload: u32,
    pub next: usize,
    pub below: usize,
}

// The sort of an operand.
#[derive(Clone, Copy, Debug, PartialEq, Eq)]
pub enum Sort {
    Arithmetic,
    Boolean,
    Array,
}

// The places of a program's parts, those of a file's main program too: its command is at `start`, and the evidence ends at `end`.
#[derive(Clone, Copy, Debug, PartialEq, Eq)]
pub struct Places {
    pub start: usize,
    pub pre: usize,
    pub post: usize,
    pub evidence: usize,
    pub end: usize,
}
