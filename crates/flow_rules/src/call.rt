// A call of a procedure, by its contract.
ghost use Rattle.goals.specs.Files.{CanTryIn, StepIn};
ghost use Rattle.goals.specs.declared.Goal.TheVariants.{Flow};

use ends::end_or_zero;
use goals::ensure;
use goals::file::File;
use implication::Failure;
use rule_laws::called::start_of;
use sets::rule::same_written;
use words::kinds::{CALL, KIND};

// Rule 31. Call; P same as the procedure's precondition, Q as its postcondition.
pub fn rule_31(file: &File, at: usize, p: usize, c: usize, q: usize) -> Result<(), Failure>
    requires { CanTryIn file.now 31 (Flow p c q) «at» }
    ensures { StepIn file.now (Flow p c q) «at» result }
{
    ensure(file.words[c] / KIND == CALL)?;
    let body = start_of(file, c);
    let pre = end_or_zero(file.ends, body);
    ensure(same_written(file.words, file.ends, p, pre))?;
    let post = end_or_zero(file.ends, pre);
    ensure(same_written(file.words, file.ends, q, post))
}
