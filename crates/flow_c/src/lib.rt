// The calls of crates/flow for C: each export takes what C passes and answers as the function of its name there, whose clauses it states
// again. A slice is passed as a pointer and then its length. All but `flow_check` take the settings as three numbers, the last ones: the
// most comparisons, depth and members.
#![tactic(auto)]

ghost use Rattle.std.specs.Prelude.{◌≡◌};
ghost use Rattle.rules.specs.Context.{standard, settings_of};
ghost use Rattle.layout.specs.Verdict.{verdict_of, packed, program_places, precondition_places, postcondition_places};
ghost use Rattle.flow.specs.CheckedMasks.{PackedMasks, PackedPut};

// The check for callers in C, `uint32_t flow_check(const uint8_t *file, size_t count)`: number × 65,536 + place, or the
// count of evidence words. It takes no settings and keeps document 01's limits.
#[unsafe(no_mangle)]
pub extern "C" fn flow_check(file: &[u8]) -> u32
    ensures { result ≡ packed (verdict_of standard file.now) }
{
    flow::flow_check(file)
}

// The same with settings, `uint32_t flow_check_settings(const uint8_t *file, size_t count, size_t comparisons, size_t depth, size_t members)`.
#[unsafe(no_mangle)]
pub extern "C" fn flow_check_settings(
    file: &[u8],
    comparisons: usize,
    depth: usize,
    members: usize,
) -> u32
    ensures { result ≡ packed (verdict_of (settings_of comparisons depth members) file.now) }
{
    flow::flow_check_settings(file, comparisons, depth, members)
}

// The program's part for callers in C, `uint32_t flow_program(const uint8_t *file, size_t count, size_t comparisons, size_t depth,
// size_t members)`: the place of its first word × 65,536 + the place past its last, or 0 if the file is refused.
#[unsafe(no_mangle)]
pub extern "C" fn flow_program(file: &[u8], comparisons: usize, depth: usize, members: usize) -> u32
    ensures { result ≡ program_places (settings_of comparisons depth members) file.now }
{
    flow::flow_program(file, comparisons, depth, members)
}

// The precondition, alike.
#[unsafe(no_mangle)]
pub extern "C" fn flow_precondition(
    file: &[u8],
    comparisons: usize,
    depth: usize,
    members: usize,
) -> u32
    ensures { result ≡ precondition_places (settings_of comparisons depth members) file.now }
{
    flow::flow_precondition(file, comparisons, depth, members)
}

// The postcondition, alike.
#[unsafe(no_mangle)]
pub extern "C" fn flow_postcondition(
    file: &[u8],
    comparisons: usize,
    depth: usize,
    members: usize,
) -> u32
    ensures { result ≡ postcondition_places (settings_of comparisons depth members) file.now }
{
    flow::flow_postcondition(file, comparisons, depth, members)
}

// The check with masks for callers in C, `uint32_t flow_check_masks(const uint8_t *file, size_t count, uint64_t *masks, size_t n,
// size_t comparisons, size_t depth, size_t members)`: the answer is packed as that of `flow_check`.
#[unsafe(no_mangle)]
pub extern "C" fn flow_check_masks(
    file: &[u8],
    masks: &mut [u64],
    comparisons: usize,
    depth: usize,
    members: usize,
) -> u32
    ensures { PackedMasks (settings_of comparisons depth members) file.now masks.old result masks.new }
{
    flow::flow_check_masks(file, masks, comparisons, depth, members)
}

// The workbench call for callers in C, `uint32_t flow_put(uint8_t *file, size_t count, uint64_t *masks, size_t n, size_t place,
// const uint8_t *command, size_t k, size_t comparisons, size_t depth, size_t members)`: 0, or number × 65,536 + place.
#[unsafe(no_mangle)]
pub extern "C" fn flow_put(
    file: &mut [u8],
    masks: &mut [u64],
    place: usize,
    command: &[u8],
    comparisons: usize,
    depth: usize,
    members: usize,
) -> u32
    ensures { PackedPut (settings_of comparisons depth members) file.old masks.old place command.now result
        file.new masks.new }
{
    flow::flow_put(file, masks, place, command, comparisons, depth, members)
}
