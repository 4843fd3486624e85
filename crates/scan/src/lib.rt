// Scans of words: what a command modifies, whether an expression or a set has an identifier of that, and refusals 16 and 7.
#![tactic(auto)]

pub mod calls;
pub mod for_mask;
pub mod mask;
pub mod pass;
pub mod place;
pub mod programs;
pub mod range;
pub mod steady;
