// The words of a file (document 01, "Layout"; document 02, request [3]): loaded from its bytes, and decoded by kind and payload.
#![tactic(auto)]

pub mod kinds; // kinds.rt: kinds and words by name
pub mod load; // load.rt: words from bytes
pub mod decode; // decode.rt: what a word of an expression or a command stands for
pub mod rows; // rows.rt: the table of rules

#[derive(Clone, Copy, Debug, PartialEq, Eq)]
pub enum Operator {
    Plus,
    Minus,
    Times,
}

#[derive(Clone, Copy, Debug, PartialEq, Eq)]
pub enum Comparison {
    Equal,
    Less,
    AtMost,
}

// Kinds 1 to 4; a constant with the integer of its payload. A word that is not of a group is its Other.
#[derive(Clone, Copy, Debug, PartialEq, Eq)]
pub enum ArithmeticWord {
    Constant(i64),
    Scalar(u32),
    Operation(Operator),
    Select,
    Other,
}

// Kinds 8 to 12.
#[derive(Clone, Copy, Debug, PartialEq, Eq)]
pub enum BooleanWord {
    Compare(Comparison),
    Truth(bool),
    And,
    Or,
    Not,
    Other,
}

// Kinds 16 to 18.
#[derive(Clone, Copy, Debug, PartialEq, Eq)]
pub enum ArrayWord {
    Identifier(u32),
    Zeros,
    Update,
    Other,
}

// Kinds 24 to 31 and 38; a `for` has its scalar q, then its bound m, a call the number of its procedure.
#[derive(Clone, Copy, Debug, PartialEq, Eq)]
pub enum CommandWord {
    Skip,
    Sequence,
    Assert,
    AssignScalar(u32),
    AssignArray(u32),
    If,
    While,
    For(u32, u32),
    Call(u32),
    Other,
}

// Kinds 33, 34 and 35.
#[derive(Clone, Copy, Debug, PartialEq, Eq)]
pub enum Judgement {
    Flow,
    Implication,
    Precondition,
}
