// The first word of an expression or a command that stands at a place, decoded by its group alone.
#![tactic(auto)]

ghost use Rattle.std.specs.Prelude.{◌≡◌, ◌<◌, length};
ghost use Rattle.words.specs.Decode.{arithmetic_of, boolean_of, command_of};
ghost use Rattle.heads.specs.Stands.{arithmetic_at, boolean_at, array_at, command_at, OfGroup};

use words::decode::{array_word, constant_of, kind, payload};
use words::kinds::{
    AND, ASSERT, CALL, CALL_WORD, COMPARISON, CONSTANT, FOR, IF, NOT, OPERATOR, OR, SCALAR, SELECT,
    SEQUENCE, SKIP, TO_ARRAY, TO_SCALAR, TRUTH, WHILE,
};
use words::{ArithmeticWord, ArrayWord, BooleanWord, CommandWord, Comparison, Operator};

// The word is allowed, so its kind settles the form: but for an operator's, no payload is tested for being allowed.
#[tactic(auto, unfolding(words::specs::Decode::arithmetic_of))]
pub fn arithmetic_head(w: &[u32], at: usize) -> ArithmeticWord
    requires { OfGroup arithmetic_of ArithmeticWord.Other w.now «at» }
    ensures { result ≡ arithmetic_at w.now «at» }
{
    let word = w[at];
    let p = payload(word);
    match kind(word) {
        CONSTANT => ArithmeticWord::Constant(constant_of(p)),
        SCALAR => ArithmeticWord::Scalar(p),
        OPERATOR => match p {
            0 => ArithmeticWord::Operation(Operator::Plus),
            1 => ArithmeticWord::Operation(Operator::Minus),
            2 => ArithmeticWord::Operation(Operator::Times),
            _ => ArithmeticWord::Other,
        },
        SELECT => ArithmeticWord::Select,
        _ => ArithmeticWord::Other,
    }
}

// As for arithmetic.
#[tactic(auto, unfolding(words::specs::Decode::boolean_of))]
pub fn boolean_head(w: &[u32], at: usize) -> BooleanWord
    requires { OfGroup boolean_of BooleanWord.Other w.now «at» }
    ensures { result ≡ boolean_at w.now «at» }
{
    let word = w[at];
    let p = payload(word);
    match kind(word) {
        COMPARISON => match p {
            0 => BooleanWord::Compare(Comparison::Equal),
            1 => BooleanWord::Compare(Comparison::Less),
            _ => BooleanWord::Compare(Comparison::AtMost),
        },
        TRUTH => match p {
            0 => BooleanWord::Truth(false),
            _ => BooleanWord::Truth(true),
        },
        AND => BooleanWord::And,
        OR => BooleanWord::Or,
        NOT => BooleanWord::Not,
        _ => BooleanWord::Other,
    }
}

pub fn array_head(w: &[u32], at: usize) -> ArrayWord
    requires { «at» < length w.now }
    ensures { result ≡ array_at w.now «at» }
{
    let word = w[at];
    array_word(kind(word), payload(word))
}

// As for arithmetic.
#[tactic(auto, unfolding(words::specs::Decode::command_of))]
pub fn command_head(w: &[u32], at: usize) -> CommandWord
    requires { OfGroup command_of CommandWord.Other w.now «at» }
    ensures { result ≡ command_at w.now «at» }
{
    let word = w[at];
    let p = payload(word);
    match kind(word) {
        SKIP => CommandWord::Skip,
        SEQUENCE => CommandWord::Sequence,
        ASSERT => CommandWord::Assert,
        TO_SCALAR => CommandWord::AssignScalar(p),
        TO_ARRAY => CommandWord::AssignArray(p),
        IF => CommandWord::If,
        WHILE => CommandWord::While,
        FOR => CommandWord::For(p % 32, p / 32),
        // not p, which is worked out before all arms if a fourth has it
        CALL => CommandWord::Call(word - CALL_WORD),
        _ => CommandWord::Other,
    }
}
