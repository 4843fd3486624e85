ghost use Rattle.std.specs.Prelude.{◌≡◌, ◌<◌};
ghost use Rattle.goals.specs.Children.{child_at};
ghost use Rattle.goals.specs.Files.{CanTryIn, StepIn};
ghost use Rattle.goals.specs.declared.Goal.TheVariants.{Pre};
ghost use Rattle.pre_compound.specs.Conditions.{CanRepeat, RepeatsAt};

use ends::{end_at, end_or_zero};
use goals::file::File;
use goals::{Goal, ensure};
use implication::{Failure, Side, implies};
use rule_laws::same::is_meaning;
use words::kinds::{FOR, KIND, WHILE};

// The conditions of rule 21, with φ0 at a, B at b, φ' at g and φ at f: φ0 ∧ B implies φ; φ' ∧ ¬B implies φ.
fn repeats(file: &File, a: usize, b: usize, g: usize, f: usize) -> Result<(), Failure>
    requires { CanRepeat file.now.words.now file.now.ends.now file.now.context.comparisons a b g f }
    ensures { RepeatsAt file.now.words.now file.now.ends.now file.now.context.comparisons a b g f result }
{
    let p = end_at(file.ends, a);
    let q = end_at(file.ends, b);
    let to = end_at(file.ends, f);
    let limit = file.context.comparisons;
    let first = implies(file.words, Side::Both(a, p, b, q), Side::One(f, to), limit);
    first?;
    let past = end_at(file.ends, g);
    implies(
        file.words,
        Side::BothNot(g, past, b, q),
        Side::One(f, to),
        limit,
    )
}

// Rule 21. While; carries φ0; φ0 ∧ B implies φ; φ' ∧ ¬B implies φ.
pub fn rule_21(file: &File, at: usize, f: usize, c: usize, g: usize) -> Result<(), Failure>
    requires { CanTryIn file.now 21 (Pre f c g) «at» }
    ensures { StepIn file.now (Pre f c g) «at» result }
{
    ensure(file.words[c] / KIND == WHILE)?;
    repeats(file, at + 1, c + 1, g, f)
}

// Its child: (φ0, C1, φ).
pub fn child_21(file: &File, at: usize, f: usize, c: usize, g: usize, k: usize) -> Goal
    requires { («at» < 8192) × (c < 8192) × (k < 1) }
    ensures { result ≡ child_at file.now.words.now file.now.ends.now (Pre f c g) 21 «at» k }
{
    let body = end_or_zero(file.ends, c + 1);
    Goal::Pre(at + 1, body, f)
}

// Rule 30. For; carries the command D that it means.
pub fn rule_30(file: &File, at: usize, f: usize, c: usize, g: usize) -> Result<(), Failure>
    requires { CanTryIn file.now 30 (Pre f c g) «at» }
    ensures { StepIn file.now (Pre f c g) «at» result }
{
    ensure(file.words[c] / KIND == FOR)?;
    ensure(is_meaning(file.words, file.ends, at + 1, c))
}

// Its child: (φ, D, φ').
pub fn child_30(file: &File, at: usize, f: usize, c: usize, g: usize, k: usize) -> Goal
    requires { («at» < 8192) × (k < 1) }
    ensures { result ≡ child_at file.now.words.now file.now.ends.now (Pre f c g) 30 «at» k }
{
    Goal::Pre(f, at + 1, g)
}
