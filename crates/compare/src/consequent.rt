ghost use Rattle.std.specs.Prelude.{◌≡◌};
ghost use Rattle.matching.specs.Matching.{same_numbers};
ghost use Rattle.matching.specs.Places.{part};
ghost use Rattle.compare.specs.Forms.{consequent_numbers, CanConsequent};

use matching::cursor::Put;
use matching::expression::match_expression;
use matching::part::{came_to_end, same_parts};

// A consequent as the rules form it, by places: the expression at a place; the same with words put for a word.
#[derive(Clone, Copy, Debug, PartialEq, Eq)]
pub enum Consequent {
    Written(usize),
    Replaced(usize, Put),
}

// Whether the written consequent at `at` is the same as the one that a rule forms, by words.
pub fn same_consequent(w: &[u32], ends: &[u32], at: usize, form: Consequent) -> bool
    requires { CanConsequent w.now ends.now «at» form }
    ensures { result ≡ same_numbers (part w.now ends.now «at»)
        (consequent_numbers w.now ends.now form) }
{
    match form {
        Consequent::Written(a) => same_parts(w, ends, at, a),
        Consequent::Replaced(a, put) => {
            let end = match_expression(w, ends, Ok(at), a, put);
            came_to_end(ends, end, at)
        }
    }
}
