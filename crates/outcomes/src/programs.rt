// Refusals 8 and 9 (document 01, "Judging order"; document 02, request [3]): the programs of a file, procedures in the order of the
// table and then the main program.
ghost use Rattle.std.specs.Prelude.{◌≡◌};
ghost use Rattle.layout.specs.File.{words_read};
ghost use Rattle.context.specs.Contexts.{limits_of};
ghost use Rattle.outcomes.specs.Programs.{CanJudgeAt, JudgedAt, CanJudgePrograms, judged_file};

use context::{Context, Refusal};
use ends::end_at;
use goals::file::File;
use goals::{Goal, Judged};
use scan::programs::procedure_count;

// Program number i, under the procedures before it, with every level left.
fn judge_at(file: &File, i: usize) -> Result<Judged, Refusal>
    requires { CanJudgeAt file.now.words.now file.now.ends.now file.now.context i }
    ensures { JudgedAt file.now.words.now file.now.ends.now file.now.context i result }
{
    let n = file.words.len();
    let at = end_at(file.ends, n + 2 * (n / 32) + i);
    let pre = end_at(file.ends, at);
    let post = end_at(file.ends, pre);
    let evidence = end_at(file.ends, post);
    let own = File {
        words: file.words,
        ends: file.ends,
        masks: file.masks,
        context: Context {
            procedures: i,
            ..file.context
        },
    };
    let goal = Goal::Flow(pre, at, post);
    judge::judge(&own, goal, evidence, file.context.depth)
}

// All programs of a file: the count of their evidence words, or the first refusal.
pub fn judge_programs(file: &File) -> Result<Judged, Refusal>
    requires { CanJudgePrograms file.now.words.now file.now.ends.now file.now.context }
    ensures { result ≡ judged_file (limits_of file.now.context) (words_read (limits_of file.now.context) file.now.words.now) }
{
    let procedures = procedure_count(file.words);
    let mut count = 0;
    for i in 0..procedures {
        let judged = judge_at(file, i)?;
        count += judged.count;
    }
    let main = judge_at(file, procedures)?;
    Ok(Judged {
        count: count + main.count,
        end: main.end,
    })
}
