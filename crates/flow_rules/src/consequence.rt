// A set implied by the precondition, or one that implies the postcondition.
ghost use Rattle.std.specs.Prelude.{◌≡◌};
ghost use Rattle.goals.specs.Children.{flow_child};
ghost use Rattle.goals.specs.Files.{CanTryIn, StepIn};
ghost use Rattle.goals.specs.declared.Goal.TheVariants.{Flow};
ghost use Rattle.flow_compound.specs.Children.{CanFlowChild};

use goals::Goal;
use goals::file::File;
use implication::Failure;

// Rule 7. Carries M; no condition.
pub fn rule_7(file: &File, at: usize, p: usize, c: usize, q: usize) -> Result<(), Failure>
    requires { CanTryIn file.now 7 (Flow p c q) «at» }
    ensures { StepIn file.now (Flow p c q) «at» result }
{
    Ok(())
}

// Its children: set (P, M), flow (M, C, Q).
pub fn child_7(ends: &[u32], at: usize, p: usize, c: usize, q: usize, k: usize) -> Goal
    requires { CanFlowChild ends.now 7 p c q «at» k }
    ensures { result ≡ flow_child ends.now p c q 7 «at» k }
{
    let m = at + 1;
    if k == 0 {
        return Goal::Set(p, m);
    }
    Goal::Flow(m, c, q)
}

// Rule 8. Carries M; no condition.
pub fn rule_8(file: &File, at: usize, p: usize, c: usize, q: usize) -> Result<(), Failure>
    requires { CanTryIn file.now 8 (Flow p c q) «at» }
    ensures { StepIn file.now (Flow p c q) «at» result }
{
    Ok(())
}

// Its children: flow (P, C, M), set (M, Q).
pub fn child_8(ends: &[u32], at: usize, p: usize, c: usize, q: usize, k: usize) -> Goal
    requires { CanFlowChild ends.now 8 p c q «at» k }
    ensures { result ≡ flow_child ends.now p c q 8 «at» k }
{
    let m = at + 1;
    if k == 0 {
        return Goal::Flow(p, c, m);
    }
    Goal::Set(m, q)
}
