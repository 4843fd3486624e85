// What a word stands for in its group, by its kind and its payload.
ghost use Rattle.std.specs.Prelude.{◌≡◌, ◌/◌, ◌%◌};
ghost use Rattle.layout.specs.Bytes.{payloads};
ghost use Rattle.layout.specs.Constant.{constant_of};
ghost use Rattle.words.specs.Decode.{operator_word, comparison_word, truth_word, arithmetic_of, boolean_of};
ghost use Rattle.words.specs.Decode.{array_of, command_of};

use super::kinds::{
    AND, ARRAY, ASSERT, CALL, COMPARISON, CONSTANT, FOR, IF, KIND, NOT, OPERATOR, OR, SCALAR,
    SELECT, SEQUENCE, SKIP, TO_ARRAY, TO_SCALAR, TRUTH, UPDATE, WHILE, ZEROS,
};
use super::{ArithmeticWord, ArrayWord, BooleanWord, CommandWord, Comparison, Operator};

pub fn kind(word: u32) -> u32
    ensures { result ≡ word / payloads }
{
    word / KIND
}

pub fn payload(word: u32) -> u32
    ensures { result ≡ word % payloads }
{
    word % KIND
}

// The constant of a payload (document 02, request [4]): for every payload from 0 to 67,108,863, below 33,554,432 the payload
// itself, otherwise the payload less 67,108,864. Whoever reads a constant reads it here.
pub fn constant_of(payload: u32) -> i64
    ensures { result ≡ constant_of payload }
{
    let p = i64::from(payload);
    if payload < 33554432 { p } else { p - 67108864 }
}

fn operator_word(payload: u32) -> ArithmeticWord
    ensures { result ≡ operator_word payload }
{
    match payload {
        0 => ArithmeticWord::Operation(Operator::Plus),
        1 => ArithmeticWord::Operation(Operator::Minus),
        2 => ArithmeticWord::Operation(Operator::Times),
        _ => ArithmeticWord::Other,
    }
}

fn comparison_word(payload: u32) -> BooleanWord
    ensures { result ≡ comparison_word payload }
{
    match payload {
        0 => BooleanWord::Compare(Comparison::Equal),
        1 => BooleanWord::Compare(Comparison::Less),
        2 => BooleanWord::Compare(Comparison::AtMost),
        _ => BooleanWord::Other,
    }
}

fn truth_word(payload: u32) -> BooleanWord
    ensures { result ≡ truth_word payload }
{
    match payload {
        0 => BooleanWord::Truth(false),
        1 => BooleanWord::Truth(true),
        _ => BooleanWord::Other,
    }
}

// Kinds 1 to 4. A reader that is due a word of one group asks for that group alone.
#[tactic(auto, unfolding(crate::specs::Decode::arithmetic_of))]
pub fn arithmetic_word(kind: u32, payload: u32) -> ArithmeticWord
    ensures { result ≡ arithmetic_of kind payload }
{
    match kind {
        CONSTANT => ArithmeticWord::Constant(constant_of(payload)),
        SCALAR if payload <= 31 => ArithmeticWord::Scalar(payload),
        OPERATOR => operator_word(payload),
        SELECT if payload == 0 => ArithmeticWord::Select,
        _ => ArithmeticWord::Other,
    }
}

// Kinds 8 to 12.
#[tactic(auto, unfolding(crate::specs::Decode::boolean_of))]
pub fn boolean_word(kind: u32, payload: u32) -> BooleanWord
    ensures { result ≡ boolean_of kind payload }
{
    match kind {
        COMPARISON => comparison_word(payload),
        TRUTH => truth_word(payload),
        AND if payload == 0 => BooleanWord::And,
        OR if payload == 0 => BooleanWord::Or,
        NOT if payload == 0 => BooleanWord::Not,
        _ => BooleanWord::Other,
    }
}

// Kinds 16 to 18.
#[tactic(auto, unfolding(crate::specs::Decode::array_of))]
pub fn array_word(kind: u32, payload: u32) -> ArrayWord
    ensures { result ≡ array_of kind payload }
{
    match kind {
        ARRAY if payload <= 31 => ArrayWord::Identifier(payload),
        ZEROS if payload == 0 => ArrayWord::Zeros,
        UPDATE if payload == 0 => ArrayWord::Update,
        _ => ArrayWord::Other,
    }
}

// Kinds 24 to 31 and 38.
#[tactic(auto, unfolding(crate::specs::Decode::command_of))]
pub fn command_word(kind: u32, payload: u32) -> CommandWord
    ensures { result ≡ command_of kind payload }
{
    match kind {
        SKIP if payload == 0 => CommandWord::Skip,
        SEQUENCE if payload == 0 => CommandWord::Sequence,
        ASSERT if payload == 0 => CommandWord::Assert,
        TO_SCALAR if payload <= 31 => CommandWord::AssignScalar(payload),
        TO_ARRAY if payload <= 31 => CommandWord::AssignArray(payload),
        IF if payload == 0 => CommandWord::If,
        WHILE if payload == 0 => CommandWord::While,
        FOR if payload <= 1023 => CommandWord::For(payload % 32, payload / 32),
        CALL => CommandWord::Call(payload),
        _ => CommandWord::Other,
    }
}
