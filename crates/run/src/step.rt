// What one step does: 13 is tried first, 14 and 15 as its operands are worked out, 12 last.
ghost use Rattle.execution.specs.Lent.{lent};
ghost use Rattle.execution.specs.Evaluate.{worked};
ghost use Rattle.arithmetic.specs.Worked.{outcome};
ghost use Rattle.run.specs.Steps.{end_of, Stepped};
ghost use Rattle.run.specs.Places.{CanRunAt, RunsAs};

use super::{Halt, Progress};
use arithmetic::Stop;
use evaluate::boolean::eval_boolean;
use evaluate::expression::{eval_array, eval_operand};
use words::CommandWord;

// A step, by what its operands came to: refused if none is left, or if they stopped.
pub fn take_step<A: Copy>(
    progress: &mut Progress,
    at: usize,
    operands: Result<A, Stop>,
) -> Result<A, Halt>
    ensures { Stepped «at» progress.old.left (outcome operands) result progress.new }
{
    if progress.left == 0 {
        progress.place = at;
        return Err(Halt::NoStepLeft);
    }
    match operands {
        Ok(a) => {
            progress.left -= 1;
            Ok(a)
        }
        Err(stop) => {
            progress.place = at;
            Err(Halt::from(stop))
        }
    }
}

// A step without operands. Not inlined: the call of a body that follows it in `run_call` is then made a jump.
#[inline(never)]
pub fn take_plain_step(progress: &mut Progress, at: usize) -> Result<(), Halt>
    ensures { Stepped «at» progress.old.left (worked tt) result progress.new }
{
    take_step(progress, at, Ok(()))
}

// An assertion stands at the place. Refusal 12: it is false.
pub fn run_assert(
    w: &[u32; 8192],
    ends: &[u32; 8753],
    at: usize,
    scalars: &[i64; 32],
    values: &[i64; 2048],
    progress: &mut Progress,
) -> Result<(), Halt>
    requires { CanRunAt w.now ends.now «at» CommandWord.Assert }
    ensures { RunsAs w.now ends.now «at» (lent scalars.now values.now)
        progress.old.left (end_of result progress.new (lent scalars.now values.now)) }
{
    let before = progress.left;
    let test = take_step(progress, at, eval_boolean(w, ends, at + 1, scalars, values))?;
    if test {
        return Ok(());
    }
    *progress = Progress {
        left: before,
        place: at,
    };
    Err(Halt::FalseAssertion)
}

// An assignment to the scalar x stands at the place.
pub fn assign_scalar(
    w: &[u32; 8192],
    ends: &[u32; 8753],
    at: usize,
    x: u32,
    scalars: &mut [i64; 32],
    values: &[i64; 2048],
    progress: &mut Progress,
) -> Result<(), Halt>
    requires { CanRunAt w.now ends.now «at» (CommandWord.AssignScalar x) }
    ensures { RunsAs w.now ends.now «at» (lent scalars.old values.now)
        progress.old.left (end_of result progress.new (lent scalars.new values.now)) }
{
    let v = take_step(progress, at, eval_operand(w, ends, at + 1, scalars, values))?;
    scalars[x as usize] = v;
    Ok(())
}

// An assignment to the array a stands at the place. Its values are worked out before any of the store is written. Not inlined: its 512
// bytes would stand in each frame of the cycle.
#[inline(never)]
pub fn assign_array(
    w: &[u32; 8192],
    ends: &[u32; 8753],
    at: usize,
    a: u32,
    scalars: &[i64; 32],
    values: &mut [i64; 2048],
    progress: &mut Progress,
) -> Result<(), Halt>
    requires { CanRunAt w.now ends.now «at» (CommandWord.AssignArray a) }
    ensures { RunsAs w.now ends.now «at» (lent scalars.now values.old)
        progress.old.left (end_of result progress.new (lent scalars.now values.new)) }
{
    let mut scratch = [0i64; 64];
    take_step(
        progress,
        at,
        eval_array(w, ends, at + 1, scalars, values, &mut scratch),
    )?;
    let first = 64 * a as usize;
    values[first..first + 64].copy_from_slice(&scratch);
    Ok(())
}
