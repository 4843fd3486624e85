ghost use Rattle.goals.specs.Files.{CanTryIn, StepIn};
ghost use Rattle.goals.specs.declared.Goal.TheVariants.{Set};
ghost use Rattle.ends.specs.Places.{end_at};
ghost use Rattle.implication.specs.Sides.{Implied};
ghost use Rattle.implication.specs.declared.Side.TheVariants.{One, False};
ghost use Rattle.set_rules.specs.Conditions.{CanTryMember, CanTryEach, EachAt};

use ends::{end_at, end_or_zero};
use goals::ensure;
use goals::file::File;
use implication::{Failure, Side, implies};
use scan::place::closed_at;
use sets::members::Members;
use sets::pile::count;

// What the implication of false by the antecedent at i comes to.
fn implies_false(file: &File, i: usize) -> Result<(), Failure>
    requires { CanTryMember file.now.words.now file.now.ends.now file.now.context.comparisons i }
    ensures { Implied file.now.words.now (One i (end_at file.now.ends.now i)) False file.now.context.comparisons result }
{
    let to = end_at(file.ends, i);
    let limit = file.context.comparisons;
    implies(file.words, Side::One(i, to), Side::False, limit)
}

// Whether each antecedent of the k members at `from` implies false; the first that does not tells.
fn each_implies_false(file: &File, k: usize, from: usize) -> Result<(), Failure>
    requires { CanTryEach file.now.words.now file.now.ends.now file.now.context.comparisons k from }
    ensures { EachAt file.now.words.now file.now.ends.now file.now.context.comparisons k from result }
{
    for i in Members::new(file.ends, k, from) {
        implies_false(file, i)?;
    }
    Ok(())
}

// Rule 14. P empty; each antecedent of Q implies false.
pub fn rule_14(file: &File, at: usize, p: usize, q: usize) -> Result<(), Failure>
    requires { CanTryIn file.now 14 (Set p q) «at» }
    ensures { StepIn file.now (Set p q) «at» result }
{
    ensure(count(file.words, p) == 0)?;
    let k = count(file.words, q);
    each_implies_false(file, k, q + 1)
}

// Rule 15. P empty; Q one member, no identifier in E.
pub fn rule_15(file: &File, at: usize, p: usize, q: usize) -> Result<(), Failure>
    requires { CanTryIn file.now 15 (Set p q) «at» }
    ensures { StepIn file.now (Set p q) «at» result }
{
    ensure(count(file.words, p) == 0)?;
    ensure(count(file.words, q) == 1)?;
    let f = q + 1;
    let e = end_or_zero(file.ends, f);
    ensure(closed_at(file.words, file.ends, e))
}
