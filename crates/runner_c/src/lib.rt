// The runner of crates/runner for C: the export takes what C passes and answers as the function of its name there, whose clause it states
// again. A slice is passed as a pointer and then its length.
#![tactic(auto)]

ghost use Rattle.rules.specs.Context.{settings_of};
ghost use Rattle.execution.specs.Lent.{lent};
ghost use Rattle.runner.specs.Packed.{PackedRun};

// The runner for callers in C: `uint64_t flow_run(const uint8_t *file, size_t count, int64_t *scalars, size_t n,
// int64_t *values, size_t k, size_t budget, size_t comparisons, size_t depth, size_t members)`. The upper 32 bits are the steps finished;
// the lower are 0 if the run ended, else number × 65,536 + place.
#[unsafe(no_mangle)]
pub extern "C" fn flow_run(
    file: &[u8],
    scalars: &mut [i64],
    values: &mut [i64],
    budget: usize,
    comparisons: usize,
    depth: usize,
    members: usize,
) -> u64
    ensures { PackedRun (settings_of comparisons depth members) file.now budget (lent scalars.old values.old) result
        (lent scalars.new values.new) }
{
    runner::flow_run(file, scalars, values, budget, comparisons, depth, members)
}
