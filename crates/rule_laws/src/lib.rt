// What the rules of all three judgements use: sameness of what is written, what is modified, implications, and what the
// word of a rule comes to.
#![tactic(auto)]

pub mod same; // sameness of what stands at two places
pub mod kept; // what a command does not modify
pub mod imply; // implications between written assertions
pub mod called; // the procedure that a call names
