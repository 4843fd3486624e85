// Operands of one word: constants, scalars, truths, identifiers of arrays and zero everywhere.
ghost use Rattle.std.specs.Prelude.{◌≡◌};
ghost use Rattle.reader.specs.Walk.{due_of};
ghost use Rattle.reader.specs.Leaves.{arithmetic_leaf, boolean_leaf, array_leaf, leaf_due};

use super::Sort;
use super::word::word_due;
use words::decode::{arithmetic_word, array_word, boolean_word};
use words::{ArithmeticWord, ArrayWord, BooleanWord};

fn is_arithmetic_leaf(word: ArithmeticWord) -> bool
    ensures { result ≡ arithmetic_leaf word }
{
    matches!(
        word,
        ArithmeticWord::Constant(_) | ArithmeticWord::Scalar(_)
    )
}

fn is_boolean_leaf(word: BooleanWord) -> bool
    ensures { result ≡ boolean_leaf word }
{
    matches!(word, BooleanWord::Truth(_))
}

fn is_array_leaf(word: ArrayWord) -> bool
    ensures { result ≡ array_leaf word }
{
    matches!(word, ArrayWord::Identifier(_) | ArrayWord::Zeros)
}

// Whether the operand of a sort that is due at a place is one word.
pub fn is_leaf(sort: Sort, w: &[u32], at: usize, left: usize) -> bool
    ensures { result ≡ leaf_due sort (due_of w.now left at) }
{
    let Ok(first) = word_due(w, at, left) else {
        return false;
    };
    match sort {
        Sort::Arithmetic => is_arithmetic_leaf(arithmetic_word(first.kind, first.payload)),
        Sort::Boolean => is_boolean_leaf(boolean_word(first.kind, first.payload)),
        Sort::Array => is_array_leaf(array_word(first.kind, first.payload)),
    }
}
