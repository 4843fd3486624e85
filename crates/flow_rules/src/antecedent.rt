// Sets under an assertion and under its necessary precondition.
ghost use Rattle.std.specs.Prelude.{◌≡◌};
ghost use Rattle.goals.specs.Children.{flow_child};
ghost use Rattle.goals.specs.Files.{CanTryIn, StepIn};
ghost use Rattle.goals.specs.declared.Goal.TheVariants.{Flow};
ghost use Rattle.flow_compound.specs.Children.{CanFlowChild};

use ends::end_or_zero;
use goals::file::File;
use goals::{Goal, ensure};
use implication::Failure;
use sets::rule::same_under;

// Rule 12. Carries S, S', φ and φ'; P same as S under φ, Q as S' under φ'.
pub fn rule_12(file: &File, at: usize, p: usize, c: usize, q: usize) -> Result<(), Failure>
    requires { CanTryIn file.now 12 (Flow p c q) «at» }
    ensures { StepIn file.now (Flow p c q) «at» result }
{
    let s = at + 1;
    let s1 = end_or_zero(file.ends, s);
    let f = end_or_zero(file.ends, s1);
    ensure(same_under(file.words, file.ends, p, s, f))?;
    let f1 = end_or_zero(file.ends, f);
    ensure(same_under(file.words, file.ends, q, s1, f1))
}

// Its children: (S, C, S'), precondition (φ, C, φ').
pub fn child_12(ends: &[u32], at: usize, p: usize, c: usize, q: usize, k: usize) -> Goal
    requires { CanFlowChild ends.now 12 p c q «at» k }
    ensures { result ≡ flow_child ends.now p c q 12 «at» k }
{
    let s = at + 1;
    let s1 = end_or_zero(ends, s);
    if k == 0 {
        return Goal::Flow(s, c, s1);
    }
    let f = end_or_zero(ends, s1);
    let f1 = end_or_zero(ends, f);
    Goal::Pre(f, c, f1)
}
