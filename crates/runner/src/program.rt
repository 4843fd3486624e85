// Refusals 1 to 7, 16 and 10 to 15 (document 01, "Judging order"; document 02, request [3]), in order, under settings in range.
ghost use Rattle.std.specs.Prelude.{◌≡◌};
ghost use Rattle.layout.specs.File.{bytes_read};
ghost use Rattle.context.specs.Contexts.{limits_of};
ghost use Rattle.execution.specs.Lent.{lent};
ghost use Rattle.heads.specs.Stands.{CommandStands};
ghost use Rattle.runner.specs.Running.{refused_at, CanRunCopied, RanFile, RanBy};

use super::Ran;
use context::{Context, Refusal};
use file::read_file;
use run::Progress;
use run::command::run_command;

// A refusal before the run: no step is finished.
pub(crate) fn refused(number: u32, place: usize) -> Ran
    ensures { result ≡ refused_at number place }
{
    Ran {
        answer: Err(Refusal { number, place }),
        steps: 0,
    }
}

// The run of the command at the place `start`, in copies of the store that have their length in their type: so the calls of a run
// hand on addresses alone.
fn run_copied(
    w: &[u32; 8192],
    ends: &[u32; 8753],
    start: usize,
    own_scalars: &mut [i64; 32],
    own_values: &mut [i64; 2048],
    scalars: &mut [i64],
    values: &mut [i64],
    budget: usize,
) -> Ran
    requires { CanRunCopied w.now ends.now start (lent scalars.old values.old) budget }
    ensures { RanFile w.now ends.now start budget
        (lent scalars.old values.old) result (lent scalars.new values.new) }
{
    own_scalars.copy_from_slice(scalars);
    own_values.copy_from_slice(values);
    let mut progress = Progress {
        left: budget as u32,
        place: 0,
    };
    let ended = run_command(w, ends, start, own_scalars, own_values, &mut progress);
    scalars.copy_from_slice(own_scalars);
    values.copy_from_slice(own_values);
    let steps = budget - progress.left as usize;
    match ended {
        Ok(()) => Ran {
            answer: Ok(()),
            steps,
        },
        Err(halt) => Ran {
            answer: Err(Refusal {
                place: progress.place,
                number: halt.number(),
            }),
            steps,
        },
    }
}

// Refusals 10 to 15, of words that refusals 2 to 7 and 16 let pass. The command of the main program stands at the place `start`.
fn run_program(
    w: &[u32; 8192],
    ends: &[u32; 8753],
    start: usize,
    scalars: &mut [i64],
    values: &mut [i64],
    budget: usize,
) -> Ran
    requires { CommandStands w.now ends.now start }
    ensures { RanFile w.now ends.now start budget
        (lent scalars.old values.old) result (lent scalars.new values.new) }
{
    if 1000000 < budget {
        return refused(10, 0);
    }
    if scalars.len() != 32 {
        return refused(11, 0);
    }
    if values.len() != 2048 {
        return refused(11, 0);
    }
    let mut own_scalars = [0i64; 32];
    let mut own_values = [0i64; 2048];
    run_copied(
        w,
        ends,
        start,
        &mut own_scalars,
        &mut own_values,
        scalars,
        values,
        budget,
    )
}

// Refusals 1 to 7 and 16, then the rest.
pub(crate) fn run_bytes(
    file: &[u8],
    context: Context,
    scalars: &mut [i64],
    values: &mut [i64],
    budget: usize,
) -> Ran
    ensures { RanBy (bytes_read (limits_of context) file.now) budget
        (lent scalars.old values.old) result (lent scalars.new values.new) }
{
    let mut words = [0u32; 8192];
    let mut table = [0u32; 8753];
    let layout = read_file(file, &mut words, &mut table, context);
    match layout {
        Ok(places) => run_program(&words, &table, places.start, scalars, values, budget),
        Err(refusal) => refused(refusal.number, refusal.place),
    }
}
