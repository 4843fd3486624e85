ghost use Rattle.std.specs.Prelude.{◌≡◌, ◌<◌, length};
ghost use Rattle.sets.specs.Items.{seen_item, pair_item, item_halves, seen_as, written_halves, same_halves};
ghost use Rattle.sets.specs.Items.{same_written_halves};
ghost use Rattle.sets.specs.declared.item.View.TheVariants.{AsWritten};
ghost use Rattle.sets.specs.Items.{past_member};
ghost use Rattle.sets.specs.Standing.{CanPass, CanCompare, CanSee};

use compare::antecedent::{Antecedent, same_antecedent};
use compare::consequent::{Consequent, same_consequent};
use compare::plain::same_booleans;
use ends::end_at;
use matching::cursor::Put;
use matching::part::same_parts;

// How a member of a written set is seen: as it stands; φ made φ ∧ B, or φ ∧ ¬B, B at a place; with words put for a word.
#[derive(Clone, Copy, Debug, PartialEq, Eq)]
pub enum View {
    AsWritten,
    Under(usize),
    Unless(usize),
    Replaced(Put),
}

// A member φ ⇒ E as the rules form it: φ and E, each compared in its own way.
#[derive(Clone, Copy, Debug, PartialEq, Eq)]
pub struct FormedMember {
    pub antecedent: Antecedent,
    pub consequent: Consequent,
}

// The place past the member that starts at `at`.
pub fn past_member(ends: &[u32], at: usize) -> usize
    requires { CanPass ends.now «at» }
    ensures { result ≡ past_member ends.now «at» }
{
    let middle = end_at(ends, at);
    end_at(ends, middle)
}

// The member at a, seen as the view says.
pub fn seen_item(ends: &[u32], a: usize, view: View) -> FormedMember
    requires { a < length ends.now }
    ensures { result ≡ seen_item ends.now view a }
{
    let middle = end_at(ends, a);
    match view {
        View::AsWritten => FormedMember {
            antecedent: Antecedent::Written(a),
            consequent: Consequent::Written(middle),
        },
        View::Under(b) => FormedMember {
            antecedent: Antecedent::And(a, b),
            consequent: Consequent::Written(middle),
        },
        View::Unless(b) => FormedMember {
            antecedent: Antecedent::AndNot(a, b),
            consequent: Consequent::Written(middle),
        },
        View::Replaced(put) => FormedMember {
            antecedent: Antecedent::Replaced(a, put),
            consequent: Consequent::Replaced(middle, put),
        },
    }
}

// φ ⇒ E by the places of φ and E.
pub fn pair_item(f: usize, b: usize) -> FormedMember
    ensures { result ≡ pair_item f b }
{
    FormedMember {
        antecedent: Antecedent::Written(f),
        consequent: Consequent::Written(b),
    }
}

// `same_item`, `same_pair` and `same_words` stay three: each makes other calls, and one function that takes the calls as closures
// would be longer than they are.

// Whether the written member at `at` is the item: its antecedent by plain forms, its consequent by words.
// Consequents first: more members of a set differ in them.
pub fn same_item(w: &[u32], ends: &[u32], at: usize, item: FormedMember) -> bool
    requires { CanCompare w.now ends.now «at» item }
    ensures { result ≡ same_halves (written_halves w.now ends.now «at»)
        (item_halves w.now ends.now item) }
{
    let middle = end_at(ends, at);
    let consequent = item.consequent;
    if !same_consequent(w, ends, middle, consequent) {
        return false;
    }
    let antecedent = item.antecedent;
    same_antecedent(w, ends, at, antecedent)
}

// Whether the written member at `at` is φ ⇒ E, φ at f and E at b: the usual one at once.
pub fn same_pair(w: &[u32], ends: &[u32], at: usize, f: usize, b: usize) -> bool
    requires { CanCompare w.now ends.now «at» (pair_item f b) }
    ensures { result ≡ same_halves (written_halves w.now ends.now «at»)
        (item_halves w.now ends.now (pair_item f b)) }
{
    let middle = end_at(ends, at);
    if !same_parts(w, ends, middle, b) {
        return false;
    }
    same_booleans(w, ends, at, f)
}

// Whether the written members at `at` and a are the same by words, antecedents too (rule 17's "without").
pub fn same_words(w: &[u32], ends: &[u32], at: usize, a: usize) -> bool
    requires { CanSee w.now ends.now «at» a AsWritten }
    ensures { result ≡ same_written_halves (written_halves w.now ends.now «at»)
        (written_halves w.now ends.now a) }
{
    let middle = end_at(ends, at);
    if !same_parts(w, ends, middle, end_at(ends, a)) {
        return false;
    }
    same_parts(w, ends, at, a)
}

// Whether the written member at `at` is the one at a, seen as the view says: as it stands, the usual view, at once.
pub fn same_seen(w: &[u32], ends: &[u32], at: usize, a: usize, view: View) -> bool
    requires { CanSee w.now ends.now «at» a view }
    ensures { result ≡ same_halves (written_halves w.now ends.now «at»)
        (seen_as w.now ends.now view a) }
{
    match view {
        View::AsWritten => same_pair(w, ends, at, a, end_at(ends, a)),
        _ => same_item(w, ends, at, seen_item(ends, a, view)),
    }
}
