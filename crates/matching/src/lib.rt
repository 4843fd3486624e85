// Words matched along a file: written expressions compared by words, also with one expression in the place of an identifier.
#![tactic(auto)]

mod equal; // words compared
pub mod cursor; // the place past a word, or past what is put for it, if that stands there
pub mod expression; // the words of an expression, with another in the place of an identifier
pub mod part; // the words of a part, and of two parts
