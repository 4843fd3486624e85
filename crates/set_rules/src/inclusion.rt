ghost use Rattle.goals.specs.Files.{CanTryIn, StepIn};
ghost use Rattle.goals.specs.declared.Goal.TheVariants.{Set};
ghost use Rattle.set_rules.specs.Conditions.{CanInclude, WithinAt};

use goals::ensure;
use goals::file::File;
use implication::Failure;
use sets::item::View;
use sets::member::seen_in;
use sets::pile::count;

// Whether each of the written set at q stands in that at p.
fn is_within(w: &[u32], ends: &[u32], q: usize, p: usize) -> bool
    requires { CanInclude w.now ends.now q p }
    ensures { WithinAt w.now ends.now q p result }
{
    let j = count(w, q);
    let k = count(w, p);
    seen_in(w, ends, j, q + 1, View::AsWritten, k, p + 1)
}

// Rule 13. Each of Q stands in P.
pub fn rule_13(file: &File, at: usize, p: usize, q: usize) -> Result<(), Failure>
    requires { CanTryIn file.now 13 (Set p q) «at» }
    ensures { StepIn file.now (Set p q) «at» result }
{
    ensure(is_within(file.words, file.ends, q, p))
}
