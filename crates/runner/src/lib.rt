// The runner (document 01, "Runner"; document 02, requests [1], [3] and [6]): reads as refusals 19, 1 to 7 and 16, then 10 and 11, and runs the
// main program's command in the lent store without judging the evidence.
#![tactic(auto)]

mod program; // program.rt: refusals 1 to 7, 16 and 10 to 15 in order

ghost use Rattle.std.specs.Prelude.{◌≡◌};
ghost use Rattle.rules.specs.Context.{settings_of};
ghost use Rattle.context.specs.Settings.{limits_given};
ghost use Rattle.execution.specs.Lent.{Lent, lent};
ghost use Rattle.runner.specs.Packed.{packed_ran, PackedRun};
ghost use Rattle.runner.specs.Ran.{RunOf};
ghost use Rattle.runner.specs.Running.{ran_at, CanPack};

use context::Refusal;
use context::settings::{Settings, are_within_ranges, context_under};
use program::{refused, run_bytes};

// The answer, the refusal where the run didn't end, with the steps finished before it.
#[derive(Clone, Copy, Debug, PartialEq, Eq)]
pub struct Ran {
    pub answer: Result<(), Refusal>,
    pub steps: usize,
}

// Runs the command of a file's main program in a lent store: 32 scalars, and 2,048 values, where array a's index i is value 64 × a + i.
pub fn run(
    file: &[u8],
    scalars: &mut [i64],
    values: &mut [i64],
    budget: usize,
    settings: Settings,
) -> Ran
    ensures { RunOf (limits_given settings) file.now budget (lent scalars.old values.old) result
        (lent scalars.new values.new) }
{
    if !are_within_ranges(settings) {
        return refused(19, 0);
    }
    run_bytes(file, context_under(settings), scalars, values, budget)
}

// The answer as one number.
fn pack(ran: Ran) -> u64
    requires { CanPack ran }
    ensures { (m : Lent) → result ≡ packed_ran (ran_at ran m) }
{
    let steps = ran.steps as u64 * 4294967296;
    match ran.answer {
        Ok(()) => steps,
        Err(refusal) => steps + (refusal.number as u64 * 65536 + refusal.place as u64),
    }
}

// The runner for callers in C, which crates/runner_c exports: `uint64_t flow_run(const uint8_t *file, size_t count, int64_t *scalars,
// size_t n, int64_t *values, size_t k, size_t budget, size_t comparisons, size_t depth, size_t members)`. The upper 32 bits are the
// steps finished; the lower are 0 if the run ended, else number × 65,536 + place.
pub fn flow_run(
    file: &[u8],
    scalars: &mut [i64],
    values: &mut [i64],
    budget: usize,
    comparisons: usize,
    depth: usize,
    members: usize,
) -> u64
    ensures { PackedRun (settings_of comparisons depth members) file.now budget (lent scalars.old values.old) result
        (lent scalars.new values.new) }
{
    let settings = Settings {
        comparisons,
        depth,
        members,
    };
    let ran = run(file, scalars, values, budget, settings);
    pack(ran)
}
