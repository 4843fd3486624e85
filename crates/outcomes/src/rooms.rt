// Refusals 1 to 9 and 16 (document 01, "Judging order"), in order. Masks are stored after 7, and before 8 and 9, where there is room
// for them (document 02, request [5]): callers that lend none lend an empty list.
ghost use Rattle.std.specs.Prelude.{◌≡◌};
ghost use Rattle.layout.specs.File.{words_read};
ghost use Rattle.context.specs.Contexts.{limits_of};
ghost use Rattle.masks.specs.Filled.{MasksOf};
ghost use Rattle.file.specs.Found.{CanLoad};
ghost use Rattle.outcomes.specs.Outcome.{outcome_of, WordsDone, OutcomeDone, WithinLimits, FitsRoom, TableFits};
ghost use Rattle.outcomes.specs.Programs.{CanJudgeFile};

use super::Accepted;
use super::programs::judge_programs;
use context::{Context, Refusal};
use file::read_file;
use goals::file::File;
use masks::fill;
use reader::Places;

// Refusals 8 and 9, with the places of the main program.
fn judge_file(
    w: &[u32],
    ends: &[u32],
    masks: &[u64],
    context: Context,
    places: Places,
) -> Result<Accepted, Refusal>
    requires { CanJudgeFile w.now ends.now context places × MasksOf w.now ends.now masks.now }
    ensures { result ≡ outcome_of (limits_of context) (words_read (limits_of context) w.now) }
{
    let file = File {
        words: w,
        ends,
        masks,
        context,
    };
    let judged = judge_programs(&file)?;
    Ok(Accepted {
        count: judged.count,
        places,
    })
}

// The same, with the masks of the words stored where there is room for them. Rules then ask these.
fn judge_stored(
    w: &[u32],
    table: &[u32],
    masks: &mut [u64],
    context: Context,
    places: Places,
) -> Result<Accepted, Refusal>
    requires { CanJudgeFile w.now table.now context places }
    ensures { WordsDone (limits_of context) w.now masks.old result masks.new }
{
    let n = w.len();
    if masks.len() < n {
        return judge_file(w, table, &masks[..0], context, places);
    }
    fill(w, table, masks);
    judge_file(w, table, &masks[..n], context, places)
}

// Refusals 1 to 9 and 16, with room for the file's words and their table.
fn check_in(
    file: &[u8],
    words: &mut [u32],
    table: &mut [u32],
    masks: &mut [u64],
    context: Context,
) -> Result<Accepted, Refusal>
    requires { CanLoad file.now words.old table.old × WithinLimits context }
    ensures { OutcomeDone (limits_of context) file.now masks.old result masks.new }
{
    let places = read_file(file, words, table, context)?;
    let n = file.len() / 4;
    judge_stored(&words[..n], table, masks, context, places)
}

// The same, in room for so many words and for so many numbers of their table.
fn check_sized<const WORDS: usize, const TABLE: usize>(
    file: &[u8],
    masks: &mut [u64],
    context: Context,
) -> Result<Accepted, Refusal>
    requires fits { FitsRoom file.now WORDS context }
    requires table { TableFits WORDS TABLE }
    ensures { OutcomeDone (limits_of context) file.now masks.old result masks.new }
{
    let mut words = [0u32; WORDS];
    let mut table = [0u32; TABLE];
    check_in(file, &mut words, &mut table, masks, context)
}

// Refusals 1 to 9 and 16. Clearing room for 8,192 words would be most of a small file's cost, so a file gets the least of these
// rooms that it fits.
pub fn outcome(file: &[u8], masks: &mut [u64], context: Context) -> Result<Accepted, Refusal>
    requires { WithinLimits context }
    ensures { OutcomeDone (limits_of context) file.now masks.old result masks.new }
{
    match file.len() {
        0..=1024 => check_sized::<256, 321>(file, masks, context),
        1025..=2048 => check_sized::<512, 593>(file, masks, context),
        2049..=4096 => check_sized::<1024, 1137>(file, masks, context),
        4097..=8192 => check_sized::<2048, 2225>(file, masks, context),
        8193..=16384 => check_sized::<4096, 4401>(file, masks, context),
        _ => check_sized::<8192, 8753>(file, masks, context),
    }
}
