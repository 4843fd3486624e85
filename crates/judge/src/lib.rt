// Evidence judged word by word, in file order (document 01, "Judging order" 8 and 9).
#![tactic(auto)]

pub mod row; // row.rt: what stands after an evidence word
pub mod rule; // rule.rt: the rule of an evidence word, and the goals of its children

ghost use Rattle.std.specs.Prelude.{◌≡◌};
ghost use Rattle.goals.specs.Files.{context_for, CanJudgeIn, JudgedIn};
ghost use Rattle.judge.specs.Refusals.{refusal_of};
ghost use Rattle.judge.specs.Going.{CanGo, Goes};

use context::Refusal;
use goals::file::File;
use goals::{Goal, Judged};
use implication::Failure;
use row::{past_carried, row_at};
use rule::{child_of, condition_at};
use words::kinds::KIND;

// The refusal of the evidence word at a place whose conditions do not pass. This is the one place that makes a refusal of
// a condition's result.
fn refusal_of(failure: Failure, at: usize) -> Refusal
    ensures { result ≡ refusal_of failure «at» }
{
    let number = match failure {
        Failure::Fails => 8,
        Failure::TooLarge => 9,
    };
    Refusal { place: at, number }
}

// The evidence at a place for a goal, with so many levels left: its word, then its children, each once.
#[cycle(judge_judge_children)]
pub fn judge(file: &File, goal: Goal, at: usize, left: usize) -> Result<Judged, Refusal>
    requires { CanJudgeIn file.now goal «at» left }
    ensures { JudgedIn file.now goal «at» left result }
{
    match condition_at(file, goal, at) {
        Ok(()) => judge_children(file, goal, at, left - 1),
        Err(failure) => Err(refusal_of(failure, at)),
    }
}

// The children of the evidence word at a place whose conditions pass, in file order; the count of words with its own.
#[cycle(judge_judge_children)]
fn judge_children(file: &File, goal: Goal, at: usize, left: usize) -> Result<Judged, Refusal>
    requires { CanGo file.now.words.now file.now.ends.now (context_for file.now) goal «at» left }
    ensures { Goes file.now.words.now file.now.ends.now (context_for file.now) goal «at» left result }
{
    let rule = file.words[at] % KIND;
    let row = row_at(goal, rule).unwrap();
    let first = past_carried(file.ends, row, at + 1);
    let mut next = first.at;
    let mut count = 1;
    for k in 0..first.rest.len() {
        let child = child_of(file, rule, goal, at, k);
        let judged = judge(file, child, next, left)?;
        count += judged.count;
        next = judged.end;
    }
    Ok(Judged { count, end: next })
}
