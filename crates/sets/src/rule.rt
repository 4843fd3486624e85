ghost use Rattle.sets.specs.Rules.{CanTwo, SameWritten, CanReplaced, SameReplaced, CanUnder, SameUnder};
ghost use Rattle.sets.specs.Rules.{CanBranches, SameBranches, CanThree, SameUnion, CanTest, TestStands};

use crate::item::{FormedMember, View};
use crate::member::has_item;
use crate::pile::{Pile, count};
use crate::set::same_set;
use compare::antecedent::Antecedent;
use compare::consequent::Consequent;
use matching::cursor::Put;

// Rules 1, 10 and 13: P same as Q.
pub fn same_written(w: &[u32], ends: &[u32], p: usize, q: usize) -> bool
    requires { CanTwo w.now ends.now p q }
    ensures { SameWritten w.now ends.now p q result }
{
    same_set(w, ends, p, &[Pile::Set(q, View::AsWritten)])
}

// Rules 3 and 4: P same as Q with the right side for the identifier.
pub fn same_replaced(w: &[u32], ends: &[u32], p: usize, q: usize, put: Put) -> bool
    requires { CanReplaced w.now ends.now p q put }
    ensures { SameReplaced w.now ends.now p q put result }
{
    same_set(w, ends, p, &[Pile::Set(q, View::Replaced(put))])
}

// Rules 5 and 12: P same as Q under B.
pub fn same_under(w: &[u32], ends: &[u32], p: usize, q: usize, b: usize) -> bool
    requires { CanUnder w.now ends.now p q b }
    ensures { SameUnder w.now ends.now p q b result }
{
    same_set(w, ends, p, &[Pile::Set(q, View::Under(b))])
}

// Rule 6: P same as S under B, T under ¬B and φ0 ⇒ B together; φ0 stands at f.
pub fn same_branches(
    w: &[u32],
    ends: &[u32],
    p: usize,
    s: usize,
    t: usize,
    b: usize,
    f: usize,
) -> bool
    requires { CanBranches w.now ends.now p s t b f }
    ensures { SameBranches w.now ends.now p s t b f result }
{
    let piles = [
        Pile::Set(s, View::Under(b)),
        Pile::Set(t, View::Unless(b)),
        Pile::One(f, b),
    ];
    same_set(w, ends, p, &piles)
}

// Rules 9 and 16: P same as S ∪ T.
pub fn same_union(w: &[u32], ends: &[u32], p: usize, s: usize, t: usize) -> bool
    requires { CanThree w.now ends.now p s t }
    ensures { SameUnion w.now ends.now p s t result }
{
    let piles = [Pile::Set(s, View::AsWritten), Pile::Set(t, View::AsWritten)];
    same_set(w, ends, p, &piles)
}

// Rule 13: true ⇒ B stands in P.
pub fn test_stands(w: &[u32], ends: &[u32], p: usize, b: usize) -> bool
    requires { CanTest w.now ends.now p b }
    ensures { TestStands w.now ends.now p b result }
{
    let k = count(w, p);
    let item = FormedMember {
        antecedent: Antecedent::True,
        consequent: Consequent::Written(b),
    };
    has_item(w, ends, k, p + 1, item)
}
