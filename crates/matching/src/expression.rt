ghost use Rattle.language.specs.Syntax.{Arithmetic, Boolean, Array};
ghost use Rattle.matching.specs.Places.{CanMatch, CanMatchAny, Matched};

use crate::cursor::{Match, Put, match_head};
use ends::end_at;
use words::kinds::{ARRAY, COMPARISON, KIND, NOT, OPERATOR, TRUTH, UPDATE};

// Past the words of the expression at b too, with those between put.from and put.to in the place of put.word. The kind of its first
// word says which sort it is: under 8 arithmetic, under 16 boolean.
// Three functions, one for each sort, in a cycle: document 01, "Where to use each form".
#[cycle(match_arithmetic_match_array_match_boolean_match_expression)]
pub fn match_expression(w: &[u32], ends: &[u32], m: Match, b: usize, put: Put) -> Match
    requires { CanMatchAny w.now ends.now b put }
    ensures { Matched w.now ends.now m b put result }
{
    let kind = w[b] / KIND;
    if kind < COMPARISON {
        return match_arithmetic(w, ends, m, b, put);
    }
    if kind < ARRAY {
        return match_boolean(w, ends, m, b, put);
    }
    match_array(w, ends, m, b, put)
}

#[cycle(match_arithmetic_match_array_match_boolean_match_expression)]
pub fn match_arithmetic(w: &[u32], ends: &[u32], m: Match, b: usize, put: Put) -> Match
    requires { CanMatch w.now ends.now Arithmetic b put }
    ensures { Matched w.now ends.now m b put result }
{
    let x = w[b];
    let head = match_head(w, m, x, put)?;
    // 1 constant and 2 scalar have no operands; 3 operator and 4 select have two
    if x / KIND < OPERATOR {
        return Ok(head);
    }
    let left = match_expression(w, ends, Ok(head), b + 1, put)?;
    let second = end_at(ends, b + 1);
    match_expression(w, ends, Ok(left), second, put)
}

#[cycle(match_arithmetic_match_array_match_boolean_match_expression)]
pub fn match_boolean(w: &[u32], ends: &[u32], m: Match, b: usize, put: Put) -> Match
    requires { CanMatch w.now ends.now Boolean b put }
    ensures { Matched w.now ends.now m b put result }
{
    let x = w[b];
    let head = match_head(w, m, x, put)?;
    let kind = x / KIND;
    // 9 truth has no operand, 12 not has one; 8 comparison, 10 and, 11 or have two
    if kind == TRUTH {
        return Ok(head);
    }
    if kind == NOT {
        return match_expression(w, ends, Ok(head), b + 1, put);
    }
    let left = match_expression(w, ends, Ok(head), b + 1, put)?;
    let second = end_at(ends, b + 1);
    match_expression(w, ends, Ok(left), second, put)
}

#[cycle(match_arithmetic_match_array_match_boolean_match_expression)]
pub fn match_array(w: &[u32], ends: &[u32], m: Match, b: usize, put: Put) -> Match
    requires { CanMatch w.now ends.now Array b put }
    ensures { Matched w.now ends.now m b put result }
{
    let x = w[b];
    let head = match_head(w, m, x, put)?;
    // 16 identifier and 17 zero everywhere have no operands; 18 update has three
    if x / KIND < UPDATE {
        return Ok(head);
    }
    let array = match_expression(w, ends, Ok(head), b + 1, put)?;
    let second = end_at(ends, b + 1);
    let index = match_expression(w, ends, Ok(array), second, put)?;
    let third = end_at(ends, second);
    match_expression(w, ends, Ok(index), third, put)
}
