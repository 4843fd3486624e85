// An if.
ghost use Rattle.std.specs.Prelude.{◌≡◌};
ghost use Rattle.goals.specs.Children.{flow_child};
ghost use Rattle.goals.specs.Files.{CanTryIn, StepIn};
ghost use Rattle.goals.specs.declared.Goal.TheVariants.{Flow};
ghost use Rattle.flow_compound.specs.Children.{CanFlowChild};

use ends::end_or_zero;
use goals::file::File;
use goals::{Goal, ensure};
use implication::Failure;
use sets::pile::count;
use sets::rule::same_branches;
use words::kinds::{IF, KIND};

// Rule 6. If; Q one written member φ ⇒ E; carries S, T and φ0; P same as S under B, T under ¬B and φ0 ⇒ B
// together.
pub fn rule_6(file: &File, at: usize, p: usize, c: usize, q: usize) -> Result<(), Failure>
    requires { CanTryIn file.now 6 (Flow p c q) «at» }
    ensures { StepIn file.now (Flow p c q) «at» result }
{
    ensure(file.words[c] / KIND == IF)?;
    ensure(count(file.words, q) == 1)?;
    let s = at + 1;
    let t = end_or_zero(file.ends, s);
    let f = end_or_zero(file.ends, t);
    ensure(same_branches(file.words, file.ends, p, s, t, c + 1, f))
}

// Its children: (S, C1, Q), (T, C2, Q), precondition (φ0, C, φ).
pub fn child_6(ends: &[u32], at: usize, p: usize, c: usize, q: usize, k: usize) -> Goal
    requires { CanFlowChild ends.now 6 p c q «at» k }
    ensures { result ≡ flow_child ends.now p c q 6 «at» k }
{
    let s = at + 1;
    let first = end_or_zero(ends, c + 1);
    if k == 0 {
        return Goal::Flow(s, first, q);
    }
    let t = end_or_zero(ends, s);
    if k == 1 {
        let second = end_or_zero(ends, first);
        return Goal::Flow(t, second, q);
    }
    let f = end_or_zero(ends, t);
    Goal::Pre(f, c, q + 1)
}
