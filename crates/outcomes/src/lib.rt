// What refusals 1 to 9 and 16 leave of a file (document 01, "Judging order"; document 02, request [3]).
#![tactic(auto)]

pub mod programs; // programs.rt: refusals 8 and 9, program by program
pub mod rooms; // rooms.rt: refusals 1 to 9 and 16 in order, in room by the size of the file

use reader::Places;

// An accepted file: the count of its evidence words, and the places of its main program.
#[derive(Clone, Copy)]
pub struct Accepted {
    pub count: usize,
    pub places: Places,
}
