// Booleans compared by their plain forms (document 02, request [2]). Nothing is built: a side whose plain form is true is passed over.
ghost use Rattle.std.specs.Prelude.{◌≡◌};
ghost use Rattle.rules.specs.Tests.{same_antecedent, same_consequent};
ghost use Rattle.compare.specs.Trees.{boolean_at, changed};
ghost use Rattle.compare.specs.Forms.{CanCompareTwo, CanComparePlain};
ghost use Rattle.compare.specs.declared.plain.Change.TheVariants.{Unchanged};

use crate::start::{left_other, other_of, plain_start, start_from};
use ends::end_at;
use matching::cursor::Put;
use matching::expression::match_boolean;
use matching::part::{came_to_end, same_parts};
use words::kinds::{COMPARISON, KIND, NOT, TRUTH};

// What is put for an identifier in the second of two booleans: nothing; words for a word.
#[derive(Clone, Copy, Debug, PartialEq, Eq)]
pub enum Change {
    Unchanged,
    Replaced(Put),
}

// Whether the boolean at f is, by words, the one at g so changed.
fn same_changed(w: &[u32], ends: &[u32], f: usize, g: usize, change: Change) -> bool
    requires { CanCompareTwo w.now ends.now f g change }
    ensures { result ≡ same_consequent (boolean_at w.now f) (changed w.now change (boolean_at w.now g)) }
{
    match change {
        Change::Unchanged => same_parts(w, ends, f, g),
        Change::Replaced(put) => {
            let end = match_boolean(w, ends, Ok(f), g, put);
            came_to_end(ends, end, f)
        }
    }
}

// Whether the plain forms of the boolean at f and of the one at g so changed are the same; p and q are their first other words.
// Comparisons have no boolean in them, so they are compared by words.
fn same_plain(
    w: &[u32],
    ends: &[u32],
    f: usize,
    p: usize,
    g: usize,
    q: usize,
    change: Change,
) -> bool
    requires { CanComparePlain w.now ends.now f p g q change }
    ensures { result ≡ same_antecedent (boolean_at w.now f) (changed w.now change (boolean_at w.now g)) }
{
    let a = start_from(w, ends, f, p);
    let b = start_from(w, ends, g, q);
    let x = w[a];
    if x != w[b] {
        return false;
    }
    let kind = x / KIND;
    if kind == TRUTH {
        return true;
    }
    if kind == COMPARISON {
        return same_changed(w, ends, a, b, change);
    }
    let left = left_other(w, ends, a, p);
    if !same_plain(
        w,
        ends,
        a + 1,
        left,
        b + 1,
        left_other(w, ends, b, q),
        change,
    ) {
        return false;
    }
    if kind == NOT {
        return true;
    }
    let c = end_at(ends, a + 1);
    let d = end_at(ends, b + 1);
    let right = other_of(w, ends, c);
    same_plain(w, ends, c, right, d, other_of(w, ends, d), change)
}

// Whether the boolean at f and the one at g so changed have the same plain form.
pub fn same_booleans_changed(w: &[u32], ends: &[u32], f: usize, g: usize, change: Change) -> bool
    requires { CanCompareTwo w.now ends.now f g change }
    ensures { result ≡ same_antecedent (boolean_at w.now f) (changed w.now change (boolean_at w.now g)) }
{
    let p = other_of(w, ends, f);
    same_plain(w, ends, f, p, g, other_of(w, ends, g), change)
}

// Whether the written booleans at f and g have the same plain form. Mostly their words are the same, or those from where their plain
// forms start on.
pub fn same_booleans(w: &[u32], ends: &[u32], f: usize, g: usize) -> bool
    requires { CanCompareTwo w.now ends.now f g Unchanged }
    ensures { result ≡ same_antecedent (boolean_at w.now f) (boolean_at w.now g) }
{
    if same_parts(w, ends, f, g) {
        return true;
    }
    let a = plain_start(w, ends, f);
    let b = plain_start(w, ends, g);
    if same_parts(w, ends, a, b) {
        return true;
    }
    same_booleans_changed(w, ends, f, g, Change::Unchanged)
}
