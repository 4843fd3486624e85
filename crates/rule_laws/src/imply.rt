ghost use Rattle.goals.specs.Files.{context_for};
ghost use Rattle.rule_laws.specs.Implications.{CanImplyAt, ImpliesAt};

use ends::end_at;
use goals::file::File;
use implication::{Failure, Side, implies};

// Whether the assertion at a implies the one at b.
pub fn implies_at(file: &File, a: usize, b: usize) -> Result<(), Failure>
    requires { CanImplyAt file.now.words.now file.now.ends.now (context_for file.now) a b }
    ensures { ImpliesAt file.now.words.now file.now.ends.now (context_for file.now) a b result }
{
    let p = end_at(file.ends, a);
    let q = end_at(file.ends, b);
    let limit = file.context.comparisons;
    implies(file.words, Side::One(a, p), Side::One(b, q), limit)
}
