// The rules of necessary preconditions of compound commands (document 01, rules 20, 21, 23 and 30), tried at an evidence
// word of kind 35. All take the same, also what a rule does not ask for: the file, the place of the evidence word, and
// the places f, c and g of the assertion, the command and the other assertion.
#![tactic(auto)]

pub mod condition; // the rules' tests of assertions, by plain forms
pub mod sequence; // rule 23
pub mod branch; // rule 20
pub mod iteration; // rules 21 and 30: while and for
