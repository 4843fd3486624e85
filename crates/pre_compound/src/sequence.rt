ghost use Rattle.std.specs.Prelude.{◌≡◌, ◌<◌};
ghost use Rattle.goals.specs.Children.{child_at};
ghost use Rattle.goals.specs.Files.{CanTryIn, StepIn};
ghost use Rattle.goals.specs.declared.Goal.TheVariants.{Pre};

use ends::end_or_zero;
use goals::file::File;
use goals::{Goal, ensure};
use implication::Failure;
use words::kinds::{KIND, SEQUENCE};

// Rule 23. Sequence; carries the middle φ1.
pub fn rule_23(file: &File, at: usize, f: usize, c: usize, g: usize) -> Result<(), Failure>
    requires { CanTryIn file.now 23 (Pre f c g) «at» }
    ensures { StepIn file.now (Pre f c g) «at» result }
{
    ensure(file.words[c] / KIND == SEQUENCE)
}

// Its children: (φ, C1, φ1), (φ1, C2, φ').
pub fn child_23(file: &File, at: usize, f: usize, c: usize, g: usize, k: usize) -> Goal
    requires { («at» < 8192) × (c < 8192) × (k < 2) }
    ensures { result ≡ child_at file.now.words.now file.now.ends.now (Pre f c g) 23 «at» k }
{
    let middle = at + 1;
    if k == 0 {
        return Goal::Pre(f, c + 1, middle);
    }
    let second = end_or_zero(file.ends, c + 1);
    Goal::Pre(middle, second, g)
}
