ghost use Rattle.std.specs.Prelude.{◌≡◌};
ghost use Rattle.language.specs.Syntax.{and, or, neg};
ghost use Rattle.rules.specs.Tests.{same_antecedent};
ghost use Rattle.compare.specs.Trees.{boolean_at};
ghost use Rattle.compare.specs.Forms.{antecedent_tree, CanCompareTwo, CanAntecedent};
ghost use Rattle.compare.specs.declared.antecedent.Antecedent.TheVariants.{And, AndNot, Split};
ghost use Rattle.compare.specs.declared.plain.Change.TheVariants.{Unchanged};

use crate::plain::{Change, same_booleans, same_booleans_changed};
use crate::start::{is_true, plain_start};
use ends::end_at;
use matching::cursor::Put;
use words::kinds::{AND_WORD, NOT_WORD, OR_WORD};

// An antecedent, or an assertion of rules 20 to 32, as the rules form it, by places: the boolean at a place; φ ∧ B; φ ∧ ¬B;
// (φ1 ∧ B) ∨ (φ2 ∧ ¬B) by φ1, φ2 and B; the boolean at a place with words put for a word; true.
#[derive(Clone, Copy, Debug, PartialEq, Eq)]
pub enum Antecedent {
    Written(usize),
    And(usize, usize),
    AndNot(usize, usize),
    Split(usize, usize, usize),
    Replaced(usize, Put),
    True,
}

// Whether the plain form of the boolean at f is that of φ ∧ B, φ at a and B at b.
fn same_and(w: &[u32], ends: &[u32], f: usize, a: usize, b: usize) -> bool
    requires { CanAntecedent w.now ends.now f (And a b) }
    ensures { result ≡ same_antecedent (boolean_at w.now f) (and (boolean_at w.now a) (boolean_at w.now b)) }
{
    if is_true(w, ends, a) {
        return same_booleans(w, ends, f, b);
    }
    if is_true(w, ends, b) {
        return same_booleans(w, ends, f, a);
    }
    let start = plain_start(w, ends, f);
    if w[start] != AND_WORD {
        return false;
    }
    if !same_booleans(w, ends, start + 1, a) {
        return false;
    }
    same_booleans(w, ends, end_at(ends, start + 1), b)
}

// That of ¬B.
fn same_not(w: &[u32], ends: &[u32], f: usize, b: usize) -> bool
    requires { CanCompareTwo w.now ends.now f b Unchanged }
    ensures { result ≡ same_antecedent (boolean_at w.now f) (neg (boolean_at w.now b)) }
{
    let start = plain_start(w, ends, f);
    if w[start] != NOT_WORD {
        return false;
    }
    same_booleans(w, ends, start + 1, b)
}

// That of φ ∧ ¬B: ¬B is never true.
fn same_and_not(w: &[u32], ends: &[u32], f: usize, a: usize, b: usize) -> bool
    requires { CanAntecedent w.now ends.now f (AndNot a b) }
    ensures { result ≡ same_antecedent (boolean_at w.now f)
        (and (boolean_at w.now a) (neg (boolean_at w.now b))) }
{
    if is_true(w, ends, a) {
        return same_not(w, ends, f, b);
    }
    let start = plain_start(w, ends, f);
    if w[start] != AND_WORD {
        return false;
    }
    if !same_booleans(w, ends, start + 1, a) {
        return false;
    }
    same_not(w, ends, end_at(ends, start + 1), b)
}

// That of (φ1 ∧ B) ∨ (φ2 ∧ ¬B), φ1 at p, φ2 at q and B at b (rule 20).
fn same_split(w: &[u32], ends: &[u32], f: usize, p: usize, q: usize, b: usize) -> bool
    requires { CanAntecedent w.now ends.now f (Split p q b) }
    ensures { result ≡ same_antecedent (boolean_at w.now f)
        (or (and (boolean_at w.now p) (boolean_at w.now b))
        (and (boolean_at w.now q) (neg (boolean_at w.now b)))) }
{
    let start = plain_start(w, ends, f);
    if w[start] != OR_WORD {
        return false;
    }
    if !same_and(w, ends, start + 1, p, b) {
        return false;
    }
    same_and_not(w, ends, end_at(ends, start + 1), q, b)
}

// Whether the written antecedent at `at` is the same as the one that a rule forms.
pub fn same_antecedent(w: &[u32], ends: &[u32], at: usize, form: Antecedent) -> bool
    requires { CanAntecedent w.now ends.now «at» form }
    ensures { result ≡ same_antecedent (boolean_at w.now «at») (antecedent_tree w.now form) }
{
    match form {
        Antecedent::Written(a) => same_booleans(w, ends, at, a),
        Antecedent::And(a, b) => same_and(w, ends, at, a, b),
        Antecedent::AndNot(a, b) => same_and_not(w, ends, at, a, b),
        Antecedent::Split(p, q, b) => same_split(w, ends, at, p, q, b),
        Antecedent::Replaced(a, put) => same_booleans_changed(
            w,
            ends,
            at,
            a,
            Change::Replaced(put),
        ),
        Antecedent::True => is_true(w, ends, at),
    }
}
