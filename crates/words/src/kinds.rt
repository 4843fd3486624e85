// Kinds and words by name (document 01, "Layout"; document 02, request [3]): a word is its kind × KIND + its payload. They stay numbers, as
// they stand in the file, which whole words are compared with; `decode` makes enums of what a reader is due.
pub const KIND: u32 = 67108864;

// Arithmetic.
pub const CONSTANT: u32 = 1;

pub const SCALAR: u32 = 2;

pub const OPERATOR: u32 = 3;

pub const SELECT: u32 = 4;

// Boolean.
pub const COMPARISON: u32 = 8;

pub const TRUTH: u32 = 9;

pub const AND: u32 = 10;

pub const OR: u32 = 11;

pub const NOT: u32 = 12;

// Array.
pub const ARRAY: u32 = 16;

pub const ZEROS: u32 = 17;

pub const UPDATE: u32 = 18;

// Commands.
pub const SKIP: u32 = 24;

pub const SEQUENCE: u32 = 25;

pub const ASSERT: u32 = 26;

pub const TO_SCALAR: u32 = 27;

pub const TO_ARRAY: u32 = 28;

pub const IF: u32 = 29;

pub const WHILE: u32 = 30;

pub const FOR: u32 = 31;

pub const CALL: u32 = 38;

// Sets, evidence, the table of procedures and the first word.
pub const SET: u32 = 32;

pub const FLOW: u32 = 33;

pub const IMPLICATION: u32 = 34;

pub const PRECONDITION: u32 = 35;

pub const PROCEDURES: u32 = 62;

pub const FILE: u32 = 63;

// Whole words. To those of a scalar, an array, an assignment, a call or a file a payload is added.
// The constant 1.
pub const ONE_WORD: u32 = CONSTANT * KIND + 1;

pub const SCALAR_WORD: u32 = SCALAR * KIND;

pub const PLUS_WORD: u32 = OPERATOR * KIND;

pub const AT_MOST_WORD: u32 = COMPARISON * KIND + 2;

pub const TRUE_WORD: u32 = TRUTH * KIND + 1;

pub const AND_WORD: u32 = AND * KIND;

pub const OR_WORD: u32 = OR * KIND;

pub const NOT_WORD: u32 = NOT * KIND;

pub const ARRAY_WORD: u32 = ARRAY * KIND;

pub const SEQUENCE_WORD: u32 = SEQUENCE * KIND;

pub const TO_SCALAR_WORD: u32 = TO_SCALAR * KIND;

pub const WHILE_WORD: u32 = WHILE * KIND;

pub const CALL_WORD: u32 = CALL * KIND;

// A count of words is added to it.
pub const FILE_WORD: usize = (FILE * KIND) as usize;
