// What a file is read and judged under, and what a call answers where it refuses.
#![tactic(auto)]

pub mod settings; // settings.rt: limits as settings

// The context: the most comparisons of an implication, the most depth, the most members of a set (document 01, "Limits"); and
// how many procedures of the file may be called (document 02, request [3]), 0 while it is read.
#[derive(Clone, Copy, Debug, PartialEq, Eq)]
pub struct Context {
    pub comparisons: usize,
    pub depth: usize,
    pub members: usize,
    pub procedures: usize,
}

// A refusal's number and place (document 01, "Judging order"). The place is first: in an answer it then stands where the place
// that a reader goes on from would. The number stays a number: it is the document's own, which the answers for C, the printed line and the
// definitions state, and an enum would have to be turned back into it at each.
#[derive(Clone, Copy, Debug, PartialEq, Eq)]
pub struct Refusal {
    pub place: usize,
    pub number: u32,
}
