// What is judged, by places in the file. Every set, command and assertion of a goal is written there.
#![tactic(auto)]

pub mod file; // the file that is judged

ghost use Rattle.std.specs.Prelude.{◌≡◌};
ghost use Rattle.goals.specs.Conditions.{condition_of};

use implication::Failure;

#[derive(Clone, Copy)]
pub enum Goal {
    // precondition, command and postcondition (rules 1 to 14 and 31)
    Flow(usize, usize, usize),
    // two sets (rules 13 to 19 of sets)
    Set(usize, usize),
    // an assertion, a command and an assertion (rules 20 to 30 and 32)
    Pre(usize, usize, usize),
}

// Evidence judged: the count of its words, and the place past it.
#[derive(Clone, Copy)]
pub struct Judged {
    pub count: usize,
    pub end: usize,
}

// A condition that is a test.
pub fn ensure(test: bool) -> Result<(), Failure>
    ensures { result ≡ condition_of test }
{
    if test { Ok(()) } else { Err(Failure::Fails) }
}
