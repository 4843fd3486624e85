// What the command does not modify.
ghost use Rattle.std.specs.Prelude.{◌≡◌};
ghost use Rattle.goals.specs.Children.{flow_child};
ghost use Rattle.goals.specs.Files.{CanTryIn, StepIn};
ghost use Rattle.goals.specs.declared.Goal.TheVariants.{Flow};
ghost use Rattle.flow_compound.specs.Children.{CanFlowChild};

use ends::end_or_zero;
use goals::file::File;
use goals::{Goal, ensure};
use implication::Failure;
use rule_laws::kept::is_kept;
use rule_laws::same::is_same_consequent;
use sets::pile::count;
use sets::rule::same_written;

// Rule 10. P same as Q, and no identifier of Q is modified.
pub fn rule_10(file: &File, at: usize, p: usize, c: usize, q: usize) -> Result<(), Failure>
    requires { CanTryIn file.now 10 (Flow p c q) «at» }
    ensures { StepIn file.now (Flow p c q) «at» result }
{
    ensure(same_written(file.words, file.ends, p, q))?;
    ensure(is_kept(file, q, c))
}

// Rule 11. P one written member φ ⇒ E, Q one φ' ⇒ E; none of E modified.
pub fn rule_11(file: &File, at: usize, p: usize, c: usize, q: usize) -> Result<(), Failure>
    requires { CanTryIn file.now 11 (Flow p c q) «at» }
    ensures { StepIn file.now (Flow p c q) «at» result }
{
    ensure(count(file.words, p) == 1)?;
    ensure(count(file.words, q) == 1)?;
    let e = end_or_zero(file.ends, p + 1);
    let f = end_or_zero(file.ends, q + 1);
    ensure(is_same_consequent(file.words, file.ends, e, f))?;
    ensure(is_kept(file, e, c))
}

// Its child: precondition (φ, C, φ').
pub fn child_11(ends: &[u32], at: usize, p: usize, c: usize, q: usize, k: usize) -> Goal
    requires { CanFlowChild ends.now 11 p c q «at» k }
    ensures { result ≡ flow_child ends.now p c q 11 «at» k }
{
    Goal::Pre(p + 1, c, q + 1)
}
