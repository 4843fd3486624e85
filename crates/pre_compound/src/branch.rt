ghost use Rattle.std.specs.Prelude.{◌≡◌, ◌<◌};
ghost use Rattle.goals.specs.Children.{child_at};
ghost use Rattle.goals.specs.Files.{CanTryIn, StepIn};
ghost use Rattle.goals.specs.declared.Goal.TheVariants.{Pre};

use super::condition::is_split;
use ends::end_or_zero;
use goals::file::File;
use goals::{Goal, ensure};
use implication::Failure;
use words::kinds::{IF, KIND};

// Rule 20. If; carries φ1 and φ2; φ is (φ1 ∧ B) ∨ (φ2 ∧ ¬B).
pub fn rule_20(file: &File, at: usize, f: usize, c: usize, g: usize) -> Result<(), Failure>
    requires { CanTryIn file.now 20 (Pre f c g) «at» }
    ensures { StepIn file.now (Pre f c g) «at» result }
{
    ensure(file.words[c] / KIND == IF)?;
    let left = at + 1;
    let right = end_or_zero(file.ends, left);
    ensure(is_split(file, f, c + 1, left, right))
}

// Its children: (φ1, C1, φ'), (φ2, C2, φ').
pub fn child_20(file: &File, at: usize, f: usize, c: usize, g: usize, k: usize) -> Goal
    requires { («at» < 8192) × (c < 8192) × (k < 2) }
    ensures { result ≡ child_at file.now.words.now file.now.ends.now (Pre f c g) 20 «at» k }
{
    let first = end_or_zero(file.ends, c + 1);
    if k == 0 {
        return Goal::Pre(at + 1, first, g);
    }
    let right = end_or_zero(file.ends, at + 1);
    let second = end_or_zero(file.ends, first);
    Goal::Pre(right, second, g)
}
