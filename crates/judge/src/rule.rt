// The rule of an evidence word, by the judgement of its goal.
ghost use Rattle.std.specs.Prelude.{◌≡◌};
ghost use Rattle.goals.specs.Files.{CanStepIn, StepIn};
ghost use Rattle.goals.specs.Children.{child_at};
ghost use Rattle.judge.specs.Going.{CanChild};

use flow_rules::{flow_child, flow_condition};
use goals::Goal;
use goals::file::File;
use implication::Failure;
use pre_rules::{pre_child, pre_condition};
use set_rules::{set_child, set_condition};

// The result of the rule's conditions.
pub fn condition_at(file: &File, goal: Goal, at: usize) -> Result<(), Failure>
    requires { CanStepIn file.now goal «at» }
    ensures { StepIn file.now goal «at» result }
{
    match goal {
        Goal::Flow(p, c, q) => flow_condition(file, at, p, c, q),
        Goal::Set(p, q) => set_condition(file, at, p, q),
        Goal::Pre(f, c, g) => pre_condition(file, at, f, c, g),
    }
}

// The goal of the rule's child number k.
pub fn child_of(file: &File, rule: u32, goal: Goal, at: usize, k: usize) -> Goal
    requires { CanChild file.now.words.now file.now.ends.now goal rule «at» k }
    ensures { result ≡ child_at file.now.words.now file.now.ends.now goal rule «at» k }
{
    match goal {
        Goal::Flow(p, c, q) => flow_child(file.ends, rule, at, p, c, q, k),
        Goal::Set(p, q) => set_child(file.ends, rule, at, p, q, k),
        Goal::Pre(f, c, g) => pre_child(file, rule, at, f, c, g, k),
    }
}
