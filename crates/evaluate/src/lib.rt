// Expressions worked out in a lent store (document 01, "Runner"): operands go left first; an index is tested as soon as
// it is worked out; a left side may settle an and or an or (document 02, request [1]). The first operand that stops is
// the expression's.
#![tactic(auto)]

pub mod store; // store.rt: the values of an array
pub mod expression; // expression.rt: arithmetic and array expressions, each calling on the other
pub mod boolean; // boolean.rt: boolean expressions
