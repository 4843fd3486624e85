// The public calls: the check on bytes (document 01, "Judging order" 1 to 9; document 02, request [3]), the parts of an accepted file, and
// the check with masks and the workbench call (request [5]). All but `flow_check` are given settings (request [6]). Those whose names begin
// with `flow_` are for C, which crates/flow_c exports: they take the settings as three numbers, the last ones, the most comparisons, depth
// and members.
#![tactic(auto)]

mod part; // part.rt: the parts of an accepted file

ghost use Rattle.std.specs.Prelude.{◌≡◌};
ghost use Rattle.rules.specs.Context.{standard, settings_of};
ghost use Rattle.layout.specs.File.{file_of};
ghost use Rattle.layout.specs.Verdict.{verdict_of, packed};
ghost use Rattle.layout.specs.Verdict.{precondition as precondition_of, postcondition as postcondition_of};
ghost use Rattle.layout.specs.Verdict.{program_places, precondition_places, postcondition_places};
ghost use Rattle.context.specs.Settings.{limits_given};
ghost use Rattle.context.specs.Contexts.{refusal};
ghost use Rattle.outcomes.specs.Outcome.{outcome_of};
ghost use Rattle.flow.specs.Answer.{packed_answer, SmallAnswer};
ghost use Rattle.flow.specs.Checked.{Checked};
ghost use Rattle.flow.specs.CheckedMasks.{CheckedMasks, PackedMasks, PutUnder, PackedPut};

use context::Refusal;
use context::settings::{Settings, are_within_ranges, context_under, standard_settings};
use masks::lent::few_numbers;
use outcomes::Accepted;
use outcomes::rooms::outcome;
use part::{Part, part_bytes, part_places};

// 19: a setting is outside its range.
fn outside_ranges() -> Refusal
    ensures { result ≡ refusal 19 0 }
{
    Refusal {
        number: 19,
        place: 0,
    }
}

// Refusals 19, 1 to 9 and 16.
pub(crate) fn outcome_under(file: &[u8], settings: Settings) -> Result<Accepted, Refusal>
    ensures { result ≡ outcome_of (limits_given settings) (file_of (limits_given settings) file.now) }
{
    if !are_within_ranges(settings) {
        return Err(outside_ranges());
    }
    let mut none = [0u64; 0];
    outcome(file, &mut none, context_under(settings))
}

// An answer as one number, for callers in C: number × 65,536 + place, or the count of evidence words.
fn pack(answer: Result<usize, Refusal>) -> u32
    requires { SmallAnswer answer }
    ensures { result ≡ packed_answer answer }
{
    match answer {
        Ok(count) => count as u32,
        Err(refusal) => refusal.number * 65536 + refusal.place as u32,
    }
}

// The check: the answer that document 01 and the requests settle for these bytes and settings, with demands 2 and 3.
pub fn check(file: &[u8], settings: Settings) -> Result<usize, Refusal>
    ensures { Checked (limits_given settings) file.now result }
{
    let accepted = outcome_under(file, settings)?;
    Ok(accepted.count)
}

// The check for callers in C, `uint32_t flow_check(const uint8_t *file, size_t count)`: number × 65,536 + place, or the
// count of evidence words. It takes no settings and keeps document 01's limits.
pub fn flow_check(file: &[u8]) -> u32
    ensures { result ≡ packed (verdict_of standard file.now) }
{
    pack(check(file, standard_settings()))
}

// The same with settings, `uint32_t flow_check_settings(const uint8_t *file, size_t count, size_t comparisons, size_t depth, size_t members)`.
pub fn flow_check_settings(file: &[u8], comparisons: usize, depth: usize, members: usize) -> u32
    ensures { result ≡ packed (verdict_of (settings_of comparisons depth members) file.now) }
{
    pack(check(
        file,
        Settings {
            comparisons,
            depth,
            members,
        },
    ))
}

// The precondition as a part of the file, empty if the file is refused.
pub fn precondition(file: &[u8], settings: Settings) -> &[u8]
    ensures { result.now ≡ precondition_of (limits_given settings) file.now }
{
    part_bytes(file, settings, Part::Precondition)
}

// The postcondition, alike.
pub fn postcondition(file: &[u8], settings: Settings) -> &[u8]
    ensures { result.now ≡ postcondition_of (limits_given settings) file.now }
{
    part_bytes(file, settings, Part::Postcondition)
}

// The program's part for callers in C, `uint32_t flow_program(const uint8_t *file, size_t count, size_t comparisons, size_t depth,
// size_t members)`: the place of its first word × 65,536 + the place past its last, or 0 if the file is refused.
pub fn flow_program(file: &[u8], comparisons: usize, depth: usize, members: usize) -> u32
    ensures { result ≡ program_places (settings_of comparisons depth members) file.now }
{
    let settings = Settings {
        comparisons,
        depth,
        members,
    };
    part_places(file, settings, Part::Program)
}

// The precondition, alike.
pub fn flow_precondition(file: &[u8], comparisons: usize, depth: usize, members: usize) -> u32
    ensures { result ≡ precondition_places (settings_of comparisons depth members) file.now }
{
    let settings = Settings {
        comparisons,
        depth,
        members,
    };
    part_places(file, settings, Part::Precondition)
}

// The postcondition, alike.
pub fn flow_postcondition(file: &[u8], comparisons: usize, depth: usize, members: usize) -> u32
    ensures { result ≡ postcondition_places (settings_of comparisons depth members) file.now }
{
    let settings = Settings {
        comparisons,
        depth,
        members,
    };
    part_places(file, settings, Part::Postcondition)
}

// The check, with the masks of what each command modifies stored in the lent numbers. Refusal 17 comes after 19, 1 and 2.
pub fn check_with_masks(
    file: &[u8],
    masks: &mut [u64],
    settings: Settings,
) -> Result<usize, Refusal>
    ensures { CheckedMasks (limits_given settings) file.now masks.old result masks.new }
{
    if !are_within_ranges(settings) {
        return Err(outside_ranges());
    }
    if few_numbers(file, masks.len()) {
        return Err(Refusal {
            number: 17,
            place: 0,
        });
    }
    let accepted = outcome(file, masks, context_under(settings))?;
    Ok(accepted.count)
}

// The same for callers in C, `uint32_t flow_check_masks(const uint8_t *file, size_t count, uint64_t *masks, size_t n, size_t comparisons,
// size_t depth, size_t members)`: the answer is packed as that of `flow_check`.
pub fn flow_check_masks(
    file: &[u8],
    masks: &mut [u64],
    comparisons: usize,
    depth: usize,
    members: usize,
) -> u32
    ensures { PackedMasks (settings_of comparisons depth members) file.now masks.old result masks.new }
{
    let settings = Settings {
        comparisons,
        depth,
        members,
    };
    pack(check_with_masks(file, masks, settings))
}

// Another skip, assert or assignment in the place of the one at a word: its bytes, as many as that has.
pub fn put(
    file: &mut [u8],
    masks: &mut [u64],
    place: usize,
    command: &[u8],
    settings: Settings,
) -> Result<(), Refusal>
    ensures { PutUnder (limits_given settings) file.old masks.old place command.now result
        file.new masks.new }
{
    workbench::put(settings, file, masks, place, command)
}

// The same for callers in C, `uint32_t flow_put(uint8_t *file, size_t count, uint64_t *masks, size_t n, size_t place, const uint8_t *command,
// size_t k, size_t comparisons, size_t depth, size_t members)`: 0, or number × 65,536 + place.
pub fn flow_put(
    file: &mut [u8],
    masks: &mut [u64],
    place: usize,
    command: &[u8],
    comparisons: usize,
    depth: usize,
    members: usize,
) -> u32
    ensures { PackedPut (settings_of comparisons depth members) file.old masks.old place command.now result
        file.new masks.new }
{
    let settings = Settings {
        comparisons,
        depth,
        members,
    };
    let answer = put(file, masks, place, command, settings);
    match answer {
        Ok(()) => 0,
        Err(refusal) => pack(Err(refusal)),
    }
}
