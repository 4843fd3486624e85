ghost use Rattle.std.specs.Prelude.{◌≡◌};
ghost use Rattle.goals.specs.Files.{CanTryIn, StepIn};
ghost use Rattle.goals.specs.declared.Goal.TheVariants.{Set};
ghost use Rattle.set_rules.specs.Conditions.{has_two, CanOperands, OperandsAt};

use ends::{end_at, end_or_zero};
use goals::ensure;
use goals::file::File;
use implication::Failure;
use sets::pile::{Pile, count};
use sets::set::same_set;
use words::kinds::{AND, COMPARISON, KIND, NOT, OPERATOR, OR};

// The kinds 3, 8, 10 and 11 have two operands that rule 19 may take.
#[tactic(auto, unfolding(crate::specs::Conditions::has_two))]
fn has_two(kind: u32) -> bool
    ensures { result ≡ has_two kind }
{
    matches!(kind, OPERATOR | COMPARISON | AND | OR)
}

// Whether the written set at p is the same as φ ⇒ each operand of E, φ at f and E at e, of kind 3, 8, 10, 11
// or 12.
fn are_operands(w: &[u32], ends: &[u32], p: usize, f: usize, e: usize) -> bool
    requires { CanOperands w.now ends.now p f e }
    ensures { OperandsAt w.now ends.now p f e result }
{
    let kind = w[e] / KIND;
    let first = Pile::One(f, e + 1);
    if kind == NOT {
        return same_set(w, ends, p, &[first]);
    }
    if !has_two(kind) {
        return false;
    }
    let next = end_at(ends, e + 1);
    let piles = [first, Pile::One(f, next)];
    same_set(w, ends, p, &piles)
}

// Rule 19. Q one member φ ⇒ E, E of kind 3, 8, 10, 11 or 12; P same as φ ⇒ each operand.
pub fn rule_19(file: &File, at: usize, p: usize, q: usize) -> Result<(), Failure>
    requires { CanTryIn file.now 19 (Set p q) «at» }
    ensures { StepIn file.now (Set p q) «at» result }
{
    ensure(count(file.words, q) == 1)?;
    let f = q + 1;
    let e = end_or_zero(file.ends, f);
    ensure(are_operands(file.words, file.ends, p, f, e))
}
