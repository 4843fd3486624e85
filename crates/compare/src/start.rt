// Where the plain form of a boolean starts (document 02, request [2]): past each side whose plain form is true. The words of such a side
// are all and or true, so that the first other word of a boolean tells of each left side that starts before it whether it is so; each word is looked
// at a few times, however the sides are nested.
ghost use Rattle.std.specs.Prelude.{◌≡◌, true, not, ◌||◌, ◌+◌, ◌≤◌, eqb, length, position};
ghost use Rattle.language.specs.Syntax.{truth};
ghost use Rattle.rules.specs.Tests.{same_antecedent};
ghost use Rattle.layout.specs.Bytes.{word_of};
ghost use Rattle.ends.specs.Places.{end_at};
ghost use Rattle.compare.specs.Trees.{boolean_at};
ghost use Rattle.compare.specs.Plain.{FirstOther, PlainFrom, CanStart, StartOf};
ghost use Rattle.compare.specs.Forms.{CanAntecedent, CanLeft};
ghost use Rattle.compare.specs.declared.antecedent.Antecedent.TheVariants.{True};

use ends::end_at;
use words::kinds::{AND_WORD, TRUE_WORD};

// Whether a word is neither and nor true.
fn is_other(x: u32) -> bool
    ensures { result ≡ not (eqb x (word_of 10 0) || eqb x (word_of 9 1)) }
{
    !matches!(x, AND_WORD | TRUE_WORD)
}

// The first of some words that is neither and nor true.
fn first_other(words: &[u32]) -> Option<usize>
    ensures { result ≡ position (λ x. not (eqb x (word_of 10 0) || eqb x (word_of 9 1))) words.now }
{
    words.iter().position(|x| is_other(*x))
}

// The place of the first word of the boolean at f that is neither and nor true, or the boolean's end.
pub fn other_of(w: &[u32], ends: &[u32], f: usize) -> usize
    requires { CanAntecedent w.now ends.now f True }
    ensures { FirstOther w.now f (end_at ends.now f) result }
{
    let to = end_at(ends, f);
    match first_other(&w[f..to]) {
        Some(k) => f + k,
        None => to,
    }
}

// Whether the plain form of the boolean at f is true.
pub fn is_true(w: &[u32], ends: &[u32], f: usize) -> bool
    requires { CanAntecedent w.now ends.now f True }
    ensures { result ≡ same_antecedent (boolean_at w.now f) (truth true) }
{
    let other = other_of(w, ends, f);
    let to = end_at(ends, f);
    other == to
}

// Where the plain form of the boolean at f starts, whose first word that is neither and nor true is at `other`.
pub fn start_from(w: &[u32], ends: &[u32], f: usize, other: usize) -> usize
    requires { CanStart w.now ends.now f other }
    ensures { StartOf w.now ends.now f other result }
{
    let mut at = f;
    // stays a `while`, since it counts nothing: the words and their ends say where each turn goes on
    while w[at] == AND_WORD {
        let second = end_at(ends, at + 1);
        if second <= other {
            at = second;
        } else if is_true(w, ends, second) {
            at += 1;
        } else {
            return at;
        }
    }
    at
}

// Where the plain form of the boolean at f starts. Only an and may drop its first word.
pub fn plain_start(w: &[u32], ends: &[u32], f: usize) -> usize
    requires { CanAntecedent w.now ends.now f True }
    ensures { PlainFrom w.now ends.now f result }
{
    if w[f] != AND_WORD {
        return f;
    }
    start_from(w, ends, f, other_of(w, ends, f))
}

// The first other word of the left side of what starts at s: that of the whole, if it is an and that stays.
pub fn left_other(w: &[u32], ends: &[u32], s: usize, other: usize) -> usize
    requires { CanLeft w.now ends.now s other }
    ensures { FirstOther w.now (s + 1) (end_at ends.now (s + 1)) result }
{
    if w[s] == AND_WORD {
        return other;
    }
    other_of(w, ends, s + 1)
}
