// A sequence.
ghost use Rattle.std.specs.Prelude.{◌≡◌};
ghost use Rattle.goals.specs.Children.{flow_child};
ghost use Rattle.goals.specs.Files.{CanTryIn, StepIn};
ghost use Rattle.goals.specs.declared.Goal.TheVariants.{Flow};
ghost use Rattle.flow_compound.specs.Children.{CanFlowChild};

use ends::end_or_zero;
use goals::file::File;
use goals::{Goal, ensure};
use implication::Failure;
use words::kinds::{KIND, SEQUENCE};

// Rule 2. Sequence; carries M.
pub fn rule_2(file: &File, at: usize, p: usize, c: usize, q: usize) -> Result<(), Failure>
    requires { CanTryIn file.now 2 (Flow p c q) «at» }
    ensures { StepIn file.now (Flow p c q) «at» result }
{
    ensure(file.words[c] / KIND == SEQUENCE)
}

// Its children: (P, C1, M), (M, C2, Q).
pub fn child_2(ends: &[u32], at: usize, p: usize, c: usize, q: usize, k: usize) -> Goal
    requires { CanFlowChild ends.now 2 p c q «at» k }
    ensures { result ≡ flow_child ends.now p c q 2 «at» k }
{
    let m = at + 1;
    let first = c + 1;
    if k == 0 {
        return Goal::Flow(p, first, m);
    }
    let second = end_or_zero(ends, first);
    Goal::Flow(m, second, q)
}
