// Two parts of a set, each with its own evidence.
ghost use Rattle.std.specs.Prelude.{◌≡◌};
ghost use Rattle.goals.specs.Children.{flow_child};
ghost use Rattle.goals.specs.Files.{CanTryIn, StepIn};
ghost use Rattle.goals.specs.declared.Goal.TheVariants.{Flow};
ghost use Rattle.flow_compound.specs.Children.{CanFlowChild};

use ends::end_or_zero;
use goals::file::File;
use goals::{Goal, ensure};
use implication::Failure;
use sets::rule::same_union;

// Rule 9. Carries S, S', T and T'; P same as S ∪ T, Q as S' ∪ T'.
pub fn rule_9(file: &File, at: usize, p: usize, c: usize, q: usize) -> Result<(), Failure>
    requires { CanTryIn file.now 9 (Flow p c q) «at» }
    ensures { StepIn file.now (Flow p c q) «at» result }
{
    let s = at + 1;
    let s1 = end_or_zero(file.ends, s);
    let t = end_or_zero(file.ends, s1);
    ensure(same_union(file.words, file.ends, p, s, t))?;
    let t1 = end_or_zero(file.ends, t);
    ensure(same_union(file.words, file.ends, q, s1, t1))
}

// Its children: (S, C, S'), (T, C, T').
pub fn child_9(ends: &[u32], at: usize, p: usize, c: usize, q: usize, k: usize) -> Goal
    requires { CanFlowChild ends.now 9 p c q «at» k }
    ensures { result ≡ flow_child ends.now p c q 9 «at» k }
{
    let s = at + 1;
    let s1 = end_or_zero(ends, s);
    if k == 0 {
        return Goal::Flow(s, c, s1);
    }
    let t = end_or_zero(ends, s1);
    let t1 = end_or_zero(ends, t);
    Goal::Flow(t, c, t1)
}
