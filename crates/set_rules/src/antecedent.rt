ghost use Rattle.goals.specs.Files.{CanTryIn, StepIn};
ghost use Rattle.goals.specs.declared.Goal.TheVariants.{Set};

use ends::end_or_zero;
use goals::ensure;
use goals::file::File;
use implication::Failure;
use rule_laws::imply::implies_at;
use rule_laws::same::is_same_consequent;
use sets::pile::count;

// Rule 18. One member each, same E; Q's antecedent implies P's.
pub fn rule_18(file: &File, at: usize, p: usize, q: usize) -> Result<(), Failure>
    requires { CanTryIn file.now 18 (Set p q) «at» }
    ensures { StepIn file.now (Set p q) «at» result }
{
    ensure(count(file.words, p) == 1)?;
    ensure(count(file.words, q) == 1)?;
    let a = p + 1;
    let e = end_or_zero(file.ends, a);
    let b = q + 1;
    let f = end_or_zero(file.ends, b);
    ensure(is_same_consequent(file.words, file.ends, e, f))?;
    implies_at(file, b, a)
}
