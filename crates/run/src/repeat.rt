// The parts of a turn of a while and of a `for`: the test, the body's place, and what follows the body.
ghost use Rattle.std.specs.Prelude.{◌≡◌, ◌+◌, ◌<◌, length};
ghost use Rattle.execution.specs.Lent.{lent};
ghost use Rattle.arithmetic.specs.Worked.{outcome};
ghost use Rattle.run.specs.Places.{CanRunAt};
ghost use Rattle.run.specs.Turns.{loop_word, body_place, CountsIn, TestsLoop, Increments, EndsPass};

use super::step::take_step;
use super::{Halt, Loop, Progress};
use arithmetic::{Stop, at_most, sum};
use ends::end_at;
use evaluate::boolean::eval_boolean;

// Whether a turn is due.
pub fn loop_test(
    w: &[u32; 8192],
    ends: &[u32; 8753],
    at: usize,
    kind: Loop,
    scalars: &[i64; 32],
    values: &[i64; 2048],
) -> Result<bool, Stop>
    requires { CanRunAt w.now ends.now «at» (loop_word kind) }
    ensures { TestsLoop w.now ends.now «at» (lent scalars.now values.now) (outcome result) }
{
    match kind {
        Loop::Test => eval_boolean(w, ends, at + 1, scalars, values),
        Loop::Count(q, m) => Ok(at_most(scalars[q as usize], scalars[m as usize])),
    }
}

pub fn body_at(ends: &[u32], at: usize, kind: Loop) -> usize
    requires { «at» + 1 < length ends.now }
    ensures { result ≡ body_place ends.now «at» kind }
{
    match kind {
        Loop::Test => end_at(ends, at + 1),
        Loop::Count(_, _) => at + 1,
    }
}

// After the body: a `for` increments its scalar, which is one step.
pub fn end_pass(
    scalars: &mut [i64; 32],
    at: usize,
    kind: Loop,
    progress: &mut Progress,
) -> Result<(), Halt>
    requires { CountsIn kind }
    ensures { EndsPass scalars.old «at» kind progress.old.left result progress.new scalars.new }
{
    match kind {
        Loop::Test => Ok(()),
        Loop::Count(q, _) => increment(scalars, q as usize, at, progress),
    }
}

fn increment(
    scalars: &mut [i64; 32],
    q: usize,
    at: usize,
    progress: &mut Progress,
) -> Result<(), Halt>
    requires { q < 32 }
    ensures { Increments scalars.old q «at» progress.old.left result progress.new scalars.new }
{
    let next = take_step(progress, at, sum(scalars[q], 1))?;
    scalars[q] = next;
    Ok(())
}
