ghost use Rattle.std.specs.Prelude.{◌≡◌, ◌<◌};
ghost use Rattle.goals.specs.Children.{set_child};
ghost use Rattle.goals.specs.Files.{CanTryIn, StepIn};
ghost use Rattle.goals.specs.declared.Goal.TheVariants.{Set};
ghost use Rattle.set_unions.specs.Unions.{CanRestUnion, RestAt};

use ends::end_or_zero;
use goals::file::File;
use goals::{Goal, ensure};
use implication::Failure;
use sets::item::View;
use sets::pile::Pile;
use sets::rule::same_union;
use sets::set::same_set;

// Rule 16. Carries S, S', T, T'; P same as S ∪ T, Q as S' ∪ T'.
pub fn rule_16(file: &File, at: usize, p: usize, q: usize) -> Result<(), Failure>
    requires { CanTryIn file.now 16 (Set p q) «at» }
    ensures { StepIn file.now (Set p q) «at» result }
{
    let s = at + 1;
    let s2 = end_or_zero(file.ends, s);
    let t = end_or_zero(file.ends, s2);
    let t2 = end_or_zero(file.ends, t);
    ensure(same_union(file.words, file.ends, p, s, t))?;
    ensure(same_union(file.words, file.ends, q, s2, t2))
}

// Its children: (S, S'), (T, T').
pub fn child_16(ends: &[u32], at: usize, p: usize, q: usize, k: usize) -> Goal
    requires { («at» < 8192) × (k < 2) }
    ensures { result ≡ set_child ends.now p q 16 «at» k }
{
    let s = at + 1;
    let s2 = end_or_zero(ends, s);
    if k == 0 {
        return Goal::Set(s, s2);
    }
    let t = end_or_zero(ends, s2);
    let t2 = end_or_zero(ends, t);
    Goal::Set(t, t2)
}

// Whether the written set at p is the same as that at t without the members of that at `leave`, and that at s,
// together.
fn is_rest_union(w: &[u32], ends: &[u32], p: usize, t: usize, leave: usize, s: usize) -> bool
    requires { CanRestUnion w.now ends.now p t leave s }
    ensures { RestAt w.now ends.now p t leave s result }
{
    let piles = [Pile::Without(t, leave), Pile::Set(s, View::AsWritten)];
    same_set(w, ends, p, &piles)
}

// Rule 17. Carries S, S', T; P same as (T without S') ∪ S.
pub fn rule_17(file: &File, at: usize, p: usize, q: usize) -> Result<(), Failure>
    requires { CanTryIn file.now 17 (Set p q) «at» }
    ensures { StepIn file.now (Set p q) «at» result }
{
    let s = at + 1;
    let s2 = end_or_zero(file.ends, s);
    let t = end_or_zero(file.ends, s2);
    ensure(is_rest_union(file.words, file.ends, p, t, s2, s))
}

// Its children: (S, S'), (T, Q).
pub fn child_17(ends: &[u32], at: usize, p: usize, q: usize, k: usize) -> Goal
    requires { («at» < 8192) × (k < 2) }
    ensures { result ≡ set_child ends.now p q 17 «at» k }
{
    let s = at + 1;
    let s2 = end_or_zero(ends, s);
    if k == 0 {
        return Goal::Set(s, s2);
    }
    let t = end_or_zero(ends, s2);
    Goal::Set(t, q)
}
