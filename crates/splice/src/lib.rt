// A skip, an assert or an assignment in the place of another of equal length (document 02, request [5]).
#![tactic(auto)]

pub mod simple; // simple.rt: such a command at a place
pub mod copy; // copy.rt: bytes copied
pub mod extent; // extent.rt: how many levels what stands at a place takes
pub mod walk; // walk.rt: one walk for the file and for the changed one
