ghost use Rattle.std.specs.Prelude.{◌≡◌, ◌<◌};
ghost use Rattle.goals.specs.Children.{child_at};
ghost use Rattle.goals.specs.Files.{CanTryIn, StepIn};
ghost use Rattle.goals.specs.declared.Goal.TheVariants.{Pre};

use goals::file::File;
use goals::{Goal, ensure};
use implication::Failure;
use pre_compound::condition::is_true;
use rule_laws::imply::implies_at;

// Rule 28. Carries φ1; φ1 implies φ.
pub fn rule_28(file: &File, at: usize, f: usize, c: usize, g: usize) -> Result<(), Failure>
    requires { CanTryIn file.now 28 (Pre f c g) «at» }
    ensures { StepIn file.now (Pre f c g) «at» result }
{
    implies_at(file, at + 1, f)
}

// Its child: (φ1, C, φ').
pub fn child_28(file: &File, at: usize, f: usize, c: usize, g: usize, k: usize) -> Goal
    requires { («at» < 8192) × (k < 1) }
    ensures { result ≡ child_at file.now.words.now file.now.ends.now (Pre f c g) 28 «at» k }
{
    Goal::Pre(at + 1, c, g)
}

// Rule 29. φ is true.
pub fn rule_29(file: &File, at: usize, f: usize, c: usize, g: usize) -> Result<(), Failure>
    requires { CanTryIn file.now 29 (Pre f c g) «at» }
    ensures { StepIn file.now (Pre f c g) «at» result }
{
    ensure(is_true(file, f))
}
