// Commands run in a lent store on a budget of steps (document 01, "Runner" and "Judging order" 12 to 15; document 02, requests [1] and [3]).
// A while and a `for` are loops here too, so that turns use no stack; calls nest no deeper than the programs of the file do, each in
// those that call it. A run hands back what stops it, and leaves behind the place where it stopped and how many steps are left.
#![tactic(auto)]

ghost use Rattle.std.specs.Prelude.{◌≡◌};
ghost use Rattle.run.specs.Steps.{halt_number, halt_of};

pub mod step; // step.rt: what one step does
pub mod repeat; // repeat.rt: the parts of a turn of a while and of a `for`
pub mod called; // called.rt: where the bodies of procedures stand
pub mod command; // command.rt: commands

use arithmetic::Stop;

// Why a run stops. The place is not in it but in the progress, so that it is handed back in a register.
#[derive(Clone, Copy, Debug, PartialEq, Eq)]
pub enum Halt {
    FalseAssertion,
    NoStepLeft,
    OutOfRange,
    BadIndex,
}

impl Halt {
    // The number of the refusal.
    pub fn number(self) -> u32
        ensures { result ≡ halt_number self }
    {
        match self {
            Halt::FalseAssertion => 12,
            Halt::NoStepLeft => 13,
            Halt::OutOfRange => 14,
            Halt::BadIndex => 15,
        }
    }
}

// What stops a run where an expression stops.
impl From<Stop> for Halt {
    ghost from_gives = { λ stop halt. halt ≡ halt_of stop };

    fn from(stop: Stop) -> Halt {
        match stop {
            Stop::OutOfRange => Halt::OutOfRange,
            Stop::BadIndex => Halt::BadIndex,
        }
    }
}

// The steps left of a run, and the place at which it stopped.
#[derive(Clone, Copy, Debug, PartialEq, Eq)]
pub struct Progress {
    pub left: u32,
    pub place: usize,
}

// A while, whose test is written; or a `for` over a scalar up to another.
#[derive(Clone, Copy)]
pub enum Loop {
    Test,
    Count(u32, u32),
}
