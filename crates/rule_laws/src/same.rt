ghost use Rattle.std.specs.Prelude.{◌≡◌, ◌+◌, ◌<◌, ◌≤◌, length};
ghost use Rattle.matching.specs.Matching.{matched};
ghost use Rattle.ends.specs.Places.{PartKnown};
ghost use Rattle.rule_laws.specs.Sameness.{CanSame, CanSameAssertion, SameAssertionAt, SameAt, start_numbers, next_numbers, meaning_numbers};
ghost use Rattle.rule_laws.specs.Sameness.{CanMean, MeaningAt};

use compare::antecedent::{Antecedent, same_antecedent};
use compare::consequent::{Consequent, same_consequent};
use matching::cursor::{Match, match_words};
use matching::part::{came_to_end, match_part};
use words::kinds::{
    AT_MOST_WORD, KIND, ONE_WORD, PLUS_WORD, SCALAR_WORD, SEQUENCE_WORD, TO_SCALAR_WORD, WHILE_WORD,
};

// Rules 22 and 27: whether the assertions at f and g are the same.
pub fn is_same_assertion(w: &[u32], ends: &[u32], f: usize, g: usize) -> bool
    requires { CanSameAssertion w.now ends.now f g }
    ensures { SameAssertionAt w.now ends.now f g result }
{
    same_antecedent(w, ends, f, Antecedent::Written(g))
}

// Rules 11 and 18: whether the consequents at f and g are the same.
pub fn is_same_consequent(w: &[u32], ends: &[u32], f: usize, g: usize) -> bool
    requires { CanSame w.now ends.now f g }
    ensures { SameAt w.now ends.now f g result }
{
    same_consequent(w, ends, f, Consequent::Written(g))
}

// Past the words before the body: 25:0 27:q 1:1 30:0 8:2 2:q 2:m 25:0, that is q := 1; while q ≤ m do (..
#[tactic(auto, unfolding(crate::specs::Sameness::start_numbers))]
fn match_start(w: &[u32], m: Match, q: u32, bound: u32) -> Match
    requires { (q ≤ 67108863) × (bound ≤ 67108863) }
    ensures { result ≡ matched w.now m (start_numbers q bound) }
{
    let words = [
        SEQUENCE_WORD,
        TO_SCALAR_WORD + q,
        ONE_WORD,
        WHILE_WORD,
        AT_MOST_WORD,
        SCALAR_WORD + q,
        SCALAR_WORD + bound,
        SEQUENCE_WORD,
    ];
    match_words(w, m, &words)
}

// Past the words after it: 27:q 3:0 2:q 1:1, that is q := q + 1.
#[tactic(auto, unfolding(crate::specs::Sameness::next_numbers))]
fn match_next(w: &[u32], m: Match, q: u32) -> Match
    requires { q ≤ 67108863 }
    ensures { result ≡ matched w.now m (next_numbers q) }
{
    let words = [TO_SCALAR_WORD + q, PLUS_WORD, SCALAR_WORD + q, ONE_WORD];
    match_words(w, m, &words)
}

// Past the words of what the `for` at c means.
fn match_meaning(w: &[u32], ends: &[u32], m: Match, c: usize) -> Match
    requires { (c < length w.now) × PartKnown w.now ends.now (c + 1) }
    ensures { result ≡ matched w.now m (meaning_numbers w.now ends.now c) }
{
    let p = w[c] % KIND;
    let q = p % 32;
    let body = match_start(w, m, q, p / 32);
    let next = match_part(w, ends, body, c + 1);
    match_next(w, next, q)
}

// Whether the command at d is what the `for` at c means: q := 1; while q ≤ m do (C; q := q + 1).
pub fn is_meaning(w: &[u32], ends: &[u32], d: usize, c: usize) -> bool
    requires { CanMean w.now ends.now d c }
    ensures { MeaningAt w.now ends.now d c result }
{
    came_to_end(ends, match_meaning(w, ends, Ok(d), c), d)
}
