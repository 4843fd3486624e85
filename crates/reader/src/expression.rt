// Expressions: a function for each sort, each calling on the others by way of `operand_at`. The words left fall.
ghost use Rattle.std.specs.Prelude.{◌≡◌};
ghost use Rattle.language.specs.Syntax as syntax;
ghost use Rattle.layout.specs.Read.{expression};
ghost use Rattle.reader.specs.Walk.{walk_of, onward, sort_meant};

use super::Sort;
use super::leaf::is_leaf;
use super::word::word_due;
use context::Refusal;
use words::decode::{arithmetic_word, array_word, boolean_word};
use words::{ArithmeticWord, ArrayWord, BooleanWord};

#[cycle(operand_at_read_arithmetic_read_array_read_boolean)]
pub fn read_arithmetic(w: &[u32], at: usize, left: usize) -> Result<usize, Refusal>
    ensures { result ≡ walk_of (expression w.now left syntax.Arithmetic at) }
{
    let first = word_due(w, at, left)?;
    match arithmetic_word(first.kind, first.payload) {
        ArithmeticWord::Constant(_) => Ok(first.next),
        ArithmeticWord::Scalar(_) => Ok(first.next),
        ArithmeticWord::Operation(_) => {
            let second = operand_at(Sort::Arithmetic, w, first.next, first.below)?;
            operand_at(Sort::Arithmetic, w, second, first.below)
        }
        ArithmeticWord::Select => {
            let index = operand_at(Sort::Array, w, first.next, first.below)?;
            operand_at(Sort::Arithmetic, w, index, first.below)
        }
        ArithmeticWord::Other => Err(Refusal {
            number: 5,
            place: at,
        }),
    }
}

#[cycle(operand_at_read_arithmetic_read_array_read_boolean)]
pub fn read_boolean(w: &[u32], at: usize, left: usize) -> Result<usize, Refusal>
    ensures { result ≡ walk_of (expression w.now left syntax.Boolean at) }
{
    let first = word_due(w, at, left)?;
    match boolean_word(first.kind, first.payload) {
        BooleanWord::Compare(_) => {
            let second = operand_at(Sort::Arithmetic, w, first.next, first.below)?;
            operand_at(Sort::Arithmetic, w, second, first.below)
        }
        BooleanWord::Truth(_) => Ok(first.next),
        BooleanWord::And => {
            let second = operand_at(Sort::Boolean, w, first.next, first.below)?;
            operand_at(Sort::Boolean, w, second, first.below)
        }
        BooleanWord::Or => {
            let second = operand_at(Sort::Boolean, w, first.next, first.below)?;
            operand_at(Sort::Boolean, w, second, first.below)
        }
        BooleanWord::Not => operand_at(Sort::Boolean, w, first.next, first.below),
        BooleanWord::Other => Err(Refusal {
            number: 5,
            place: at,
        }),
    }
}

#[cycle(operand_at_read_arithmetic_read_array_read_boolean)]
pub fn read_array(w: &[u32], at: usize, left: usize) -> Result<usize, Refusal>
    ensures { result ≡ walk_of (expression w.now left syntax.Array at) }
{
    let first = word_due(w, at, left)?;
    match array_word(first.kind, first.payload) {
        ArrayWord::Identifier(_) => Ok(first.next),
        ArrayWord::Zeros => Ok(first.next),
        ArrayWord::Update => {
            let index = operand_at(Sort::Array, w, first.next, first.below)?;
            let value = operand_at(Sort::Arithmetic, w, index, first.below)?;
            operand_at(Sort::Arithmetic, w, value, first.below)
        }
        ArrayWord::Other => Err(Refusal {
            number: 5,
            place: at,
        }),
    }
}

// An operand of a sort at a place. One of one word makes no call of the cycle.
#[cycle(operand_at_read_arithmetic_read_array_read_boolean)]
fn operand_at(sort: Sort, w: &[u32], at: usize, left: usize) -> Result<usize, Refusal>
    ensures { result ≡ walk_of (expression w.now left (sort_meant sort) at) }
{
    if is_leaf(sort, w, at, left) {
        return Ok(at + 1);
    }
    match sort {
        Sort::Arithmetic => read_arithmetic(w, at, left),
        Sort::Boolean => read_boolean(w, at, left),
        Sort::Array => read_array(w, at, left),
    }
}

// An operand of a sort, from where the walk so far goes on.
pub fn read_operand(
    sort: Sort,
    w: &[u32],
    from: Result<usize, Refusal>,
    left: usize,
) -> Result<usize, Refusal>
    ensures { result ≡ onward from (λ p. walk_of (expression w.now left (sort_meant sort) p)) }
{
    operand_at(sort, w, from?, left)
}
