ghost use Rattle.pre_compound.specs.Conditions.{CanSplit, SplitAt, CanJoin, JoinAt, CanReplace, ReplacedAt, CanTrue, TrueAt};

use compare::antecedent::{Antecedent, same_antecedent};
use ends::end_at;
use goals::file::File;
use matching::cursor::Put;

// Rule 20: whether φ at f is (φ1 ∧ B) ∨ (φ2 ∧ ¬B), with B at b, φ1 at p and φ2 at q.
pub fn is_split(file: &File, f: usize, b: usize, p: usize, q: usize) -> bool
    requires { CanSplit file.now.words.now file.now.ends.now f b p q }
    ensures { SplitAt file.now.words.now file.now.ends.now f b p q result }
{
    same_antecedent(file.words, file.ends, f, Antecedent::Split(p, q, b))
}

// Rule 26: whether φ at f is φ' ∧ B, with φ' at g and B at b.
pub fn is_join(file: &File, f: usize, g: usize, b: usize) -> bool
    requires { CanJoin file.now.words.now file.now.ends.now f g b }
    ensures { JoinAt file.now.words.now file.now.ends.now f g b result }
{
    same_antecedent(file.words, file.ends, f, Antecedent::And(g, b))
}

// Rules 24 and 25: whether φ at f is φ' at g with the right side at a in the place of the identifier's word.
pub fn is_replaced(file: &File, f: usize, g: usize, word: u32, a: usize) -> bool
    requires { CanReplace file.now.words.now file.now.ends.now f g word a }
    ensures { ReplacedAt file.now.words.now file.now.ends.now f g word a result }
{
    let to = end_at(file.ends, a);
    let put = Put { word, from: a, to };
    same_antecedent(file.words, file.ends, f, Antecedent::Replaced(g, put))
}

// Rule 29: whether φ at f is true.
pub fn is_true(file: &File, f: usize) -> bool
    requires { CanTrue file.now.words.now file.now.ends.now f }
    ensures { TrueAt file.now.words.now file.now.ends.now f result }
{
    same_antecedent(file.words, file.ends, f, Antecedent::True)
}
