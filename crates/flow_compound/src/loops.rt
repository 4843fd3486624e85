// A while, and a for by the command that it means.
ghost use Rattle.std.specs.Prelude.{◌≡◌};
ghost use Rattle.goals.specs.Children.{flow_child};
ghost use Rattle.goals.specs.Files.{CanTryIn, StepIn};
ghost use Rattle.goals.specs.declared.Goal.TheVariants.{Flow};
ghost use Rattle.flow_compound.specs.Children.{CanFlowChild};

use ends::end_or_zero;
use goals::file::File;
use goals::{Goal, ensure};
use implication::Failure;
use rule_laws::same::is_meaning;
use sets::rule::{same_written, test_stands};
use words::kinds::{FOR, KIND, WHILE};

// Rule 13. While; P same as Q; true ⇒ B stands in P.
pub fn rule_13(file: &File, at: usize, p: usize, c: usize, q: usize) -> Result<(), Failure>
    requires { CanTryIn file.now 13 (Flow p c q) «at» }
    ensures { StepIn file.now (Flow p c q) «at» result }
{
    ensure(file.words[c] / KIND == WHILE)?;
    ensure(same_written(file.words, file.ends, p, q))?;
    ensure(test_stands(file.words, file.ends, p, c + 1))
}

// Its child: (P, C1, Q).
pub fn child_13(ends: &[u32], at: usize, p: usize, c: usize, q: usize, k: usize) -> Goal
    requires { CanFlowChild ends.now 13 p c q «at» k }
    ensures { result ≡ flow_child ends.now p c q 13 «at» k }
{
    let body = end_or_zero(ends, c + 1);
    Goal::Flow(p, body, q)
}

// Rule 14. For; carries the command D that it means.
pub fn rule_14(file: &File, at: usize, p: usize, c: usize, q: usize) -> Result<(), Failure>
    requires { CanTryIn file.now 14 (Flow p c q) «at» }
    ensures { StepIn file.now (Flow p c q) «at» result }
{
    ensure(file.words[c] / KIND == FOR)?;
    ensure(is_meaning(file.words, file.ends, at + 1, c))
}

// Its child: (P, D, Q).
pub fn child_14(ends: &[u32], at: usize, p: usize, c: usize, q: usize, k: usize) -> Goal
    requires { CanFlowChild ends.now 14 p c q «at» k }
    ensures { result ≡ flow_child ends.now p c q 14 «at» k }
{
    Goal::Flow(p, at + 1, q)
}
