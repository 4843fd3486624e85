// Signed 64-bit arithmetic as the runner has it (document 01, "Runner" and "Judging order" 14 and 15): sums,
// differences and products that are checked, comparisons, and indexes that are tested.
#![tactic(auto)]

ghost use Rattle.std.specs.Prelude.{◌≡◌, ◌<◌, IfOk, ◌+ℤ◌, ◌-ℤ◌, ◌*ℤ◌};
ghost use Rattle.std.specs.Int.Signed.{le_z};
ghost use Rattle.language.specs.Store.{apply, relate as relate_of};
ghost use Rattle.execution.specs.Evaluate.{worked, index};
ghost use Rattle.words.specs.Meaning.{operator_meant, comparison_meant};
ghost use Rattle.arithmetic.specs.Worked.{outcome, index_outcome, checked, refusal_number};

use words::{Comparison, Operator};

// Why the working out of an expression stops.
#[derive(Clone, Copy, Debug, PartialEq, Eq)]
pub enum Stop {
    // a value leaves the signed 64-bit range
    OutOfRange,
    // an index is outside 0 to 63
    BadIndex,
}

impl Stop {
    // The number of the refusal.
    pub fn number(self) -> u32
        ensures { result ≡ refusal_number self }
    {
        match self {
            Stop::OutOfRange => 14,
            Stop::BadIndex => 15,
        }
    }
}

pub fn sum(a: i64, b: i64) -> Result<i64, Stop>
    ensures { outcome result ≡ checked (a +ℤ b) }
{
    a.checked_add(b).ok_or(Stop::OutOfRange)
}

pub fn difference(a: i64, b: i64) -> Result<i64, Stop>
    ensures { outcome result ≡ checked (a -ℤ b) }
{
    a.checked_sub(b).ok_or(Stop::OutOfRange)
}

pub fn product(a: i64, b: i64) -> Result<i64, Stop>
    ensures { outcome result ≡ checked (a *ℤ b) }
{
    a.checked_mul(b).ok_or(Stop::OutOfRange)
}

pub fn operate(o: Operator, a: i64, b: i64) -> Result<i64, Stop>
    ensures { outcome result ≡ checked (apply (operator_meant o) a b) }
{
    match o {
        Operator::Plus => sum(a, b),
        Operator::Minus => difference(a, b),
        Operator::Times => product(a, b),
    }
}

pub fn at_most(a: i64, b: i64) -> bool
    ensures { result ≡ le_z a b }
{
    a <= b
}

pub fn relate(c: Comparison, a: i64, b: i64) -> bool
    ensures { result ≡ relate_of (comparison_meant c) a b }
{
    match c {
        Comparison::Equal => a == b,
        Comparison::Less => a < b,
        Comparison::AtMost => at_most(a, b),
    }
}

pub fn place(z: i64) -> Result<usize, Stop>
    ensures outcome { index_outcome result ≡ index (worked z) }
    ensures small { IfOk result (λ n. n < 64) }
{
    match usize::try_from(z) {
        Ok(n) if n < 64 => Ok(n),
        _ => Err(Stop::BadIndex),
    }
}
