// Commands.
ghost use Rattle.execution.specs.Lent.{lent};
ghost use Rattle.heads.specs.Stands.{CommandStands};
ghost use Rattle.run.specs.Steps.{end_of};
ghost use Rattle.run.specs.Places.{CanRunAt, RunsAs};
ghost use Rattle.run.specs.Turns.{loop_word, TurnsAs, PassAs};

use super::called::called_at;
use super::repeat::{body_at, end_pass, loop_test};
use super::step::{assign_array, assign_scalar, run_assert, take_plain_step, take_step};
use super::{Halt, Loop, Progress};
use ends::end_at;
use evaluate::boolean::eval_boolean;
use heads::command_head;
use words::CommandWord;

#[cycle(run_call_run_command_run_for_run_if_run_pass_run_sequence_run_turns)]
pub fn run_command(
    w: &[u32; 8192],
    ends: &[u32; 8753],
    at: usize,
    scalars: &mut [i64; 32],
    values: &mut [i64; 2048],
    progress: &mut Progress,
) -> Result<(), Halt>
    requires { CommandStands w.now ends.now «at» }
    ensures { RunsAs w.now ends.now «at» (lent scalars.old values.old)
        progress.old.left (end_of result progress.new (lent scalars.new values.new)) }
{
    let head = command_head(w, at);
    match head {
        CommandWord::Skip => take_step(progress, at, Ok(())),
        CommandWord::Sequence => run_sequence(w, ends, at, scalars, values, progress),
        CommandWord::Assert => run_assert(w, ends, at, scalars, values, progress),
        CommandWord::AssignScalar(x) => assign_scalar(w, ends, at, x, scalars, values, progress),
        CommandWord::AssignArray(a) => assign_array(w, ends, at, a, scalars, values, progress),
        CommandWord::If => run_if(w, ends, at, scalars, values, progress),
        CommandWord::While => run_turns(w, ends, at, Loop::Test, scalars, values, progress),
        CommandWord::For(q, m) => run_for(w, ends, at, q, m, scalars, values, progress),
        CommandWord::Call(p) => run_call(w, ends, at, p, scalars, values, progress),
        CommandWord::Other => unreachable!(),
    }
}

// The first command, then the second from where the first ended.
#[cycle(run_call_run_command_run_for_run_if_run_pass_run_sequence_run_turns)]
fn run_sequence(
    w: &[u32; 8192],
    ends: &[u32; 8753],
    at: usize,
    scalars: &mut [i64; 32],
    values: &mut [i64; 2048],
    progress: &mut Progress,
) -> Result<(), Halt>
    requires { CanRunAt w.now ends.now «at» CommandWord.Sequence }
    ensures { RunsAs w.now ends.now «at» (lent scalars.old values.old)
        progress.old.left (end_of result progress.new (lent scalars.new values.new)) }
{
    run_command(w, ends, at + 1, scalars, values, progress)?;
    let second = end_at(ends, at + 1);
    run_command(w, ends, second, scalars, values, progress)
}

#[cycle(run_call_run_command_run_for_run_if_run_pass_run_sequence_run_turns)]
fn run_if(
    w: &[u32; 8192],
    ends: &[u32; 8753],
    at: usize,
    scalars: &mut [i64; 32],
    values: &mut [i64; 2048],
    progress: &mut Progress,
) -> Result<(), Halt>
    requires { CanRunAt w.now ends.now «at» CommandWord.If }
    ensures { RunsAs w.now ends.now «at» (lent scalars.old values.old)
        progress.old.left (end_of result progress.new (lent scalars.new values.new)) }
{
    let test = take_step(progress, at, eval_boolean(w, ends, at + 1, scalars, values))?;
    let first = end_at(ends, at + 1);
    if test {
        run_command(w, ends, first, scalars, values, progress)
    } else {
        let second = end_at(ends, first);
        run_command(w, ends, second, scalars, values, progress)
    }
}

// A call, which is one step, then the body of procedure p from the store at hand.
#[cycle(run_call_run_command_run_for_run_if_run_pass_run_sequence_run_turns)]
fn run_call(
    w: &[u32; 8192],
    ends: &[u32; 8753],
    at: usize,
    p: u32,
    scalars: &mut [i64; 32],
    values: &mut [i64; 2048],
    progress: &mut Progress,
) -> Result<(), Halt>
    requires { CanRunAt w.now ends.now «at» (CommandWord.Call p) }
    ensures { RunsAs w.now ends.now «at» (lent scalars.old values.old)
        progress.old.left (end_of result progress.new (lent scalars.new values.new)) }
{
    take_plain_step(progress, at)?;
    let body = called_at(w, ends, p);
    run_command(w, ends, body, scalars, values, progress)
}

// The start of a `for`, which is one step, then its turns.
#[cycle(run_call_run_command_run_for_run_if_run_pass_run_sequence_run_turns)]
fn run_for(
    w: &[u32; 8192],
    ends: &[u32; 8753],
    at: usize,
    q: u32,
    m: u32,
    scalars: &mut [i64; 32],
    values: &mut [i64; 2048],
    progress: &mut Progress,
) -> Result<(), Halt>
    requires { CanRunAt w.now ends.now «at» (CommandWord.For q m) }
    ensures { RunsAs w.now ends.now «at» (lent scalars.old values.old)
        progress.old.left (end_of result progress.new (lent scalars.new values.new)) }
{
    scalars[q as usize] = take_step(progress, at, Ok(1))?;
    run_turns(w, ends, at, Loop::Count(q, m), scalars, values, progress)
}

// A while, or a `for` from its test on. Each turn takes a step, so the steps left fall. Inlined in both places: a loop of few turns would else
// cost a call, and its kind a place in memory.
#[inline(always)]
#[cycle(run_call_run_command_run_for_run_if_run_pass_run_sequence_run_turns)]
fn run_turns(
    w: &[u32; 8192],
    ends: &[u32; 8753],
    at: usize,
    kind: Loop,
    scalars: &mut [i64; 32],
    values: &mut [i64; 2048],
    progress: &mut Progress,
) -> Result<(), Halt>
    requires { CanRunAt w.now ends.now «at» (loop_word kind) }
    ensures { TurnsAs w.now ends.now «at» (lent scalars.old values.old)
        progress.old.left (end_of result progress.new (lent scalars.new values.new)) }
{
    // stays a `while`: it counts nothing, and its test is that of the program
    while take_step(progress, at, loop_test(w, ends, at, kind, scalars, values))? {
        run_pass(w, ends, at, kind, scalars, values, progress)?;
    }
    Ok(())
}

// The body, and what follows it.
#[cycle(run_call_run_command_run_for_run_if_run_pass_run_sequence_run_turns)]
fn run_pass(
    w: &[u32; 8192],
    ends: &[u32; 8753],
    at: usize,
    kind: Loop,
    scalars: &mut [i64; 32],
    values: &mut [i64; 2048],
    progress: &mut Progress,
) -> Result<(), Halt>
    requires { CanRunAt w.now ends.now «at» (loop_word kind) }
    ensures { PassAs w.now ends.now «at» (lent scalars.old values.old)
        progress.old.left (end_of result progress.new (lent scalars.new values.new)) }
{
    let place = body_at(ends, at, kind);
    run_command(w, ends, place, scalars, values, progress)?;
    end_pass(scalars, at, kind, progress)
}
