ghost use Rattle.std.specs.Prelude.{◌≡◌, ◌<◌, ◌≤◌, length};
ghost use Rattle.goals.specs.Children.{child_at};
ghost use Rattle.goals.specs.Files.{CanTryIn, StepIn};
ghost use Rattle.goals.specs.declared.Goal.TheVariants.{Pre};

use goals::file::File;
use goals::{Goal, ensure};
use implication::Failure;
use rule_laws::called::start_of;
use words::kinds::{CALL, KIND};

// Rule 32. Call.
pub fn rule_32(file: &File, at: usize, f: usize, c: usize, g: usize) -> Result<(), Failure>
    requires { CanTryIn file.now 32 (Pre f c g) «at» }
    ensures { StepIn file.now (Pre f c g) «at» result }
{
    ensure(file.words[c] / KIND == CALL)
}

// Its child: (φ, body, φ').
pub fn child_32(file: &File, at: usize, f: usize, c: usize, g: usize, k: usize) -> Goal
    requires { (length file.now.words.now ≤ 8192) × (c < length file.now.words.now) × (k < 1) }
    ensures { result ≡ child_at file.now.words.now file.now.ends.now (Pre f c g) 32 «at» k }
{
    let body = start_of(file, c);
    Goal::Pre(f, body, g)
}
