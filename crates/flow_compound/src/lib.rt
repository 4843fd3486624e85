// The rules of flow of compound commands (document 01, rules 2, 6, 13 and 14), at the evidence word at `at`, of kind 33,
// for the set at p, the command at c and the set at q. `rule_` with a rule's number tries its conditions, `child_` gives
// the goal of its k-th child, 0 the first. They are called alike, so that some do not use all that they are given.
#![tactic(auto)]

pub mod sequence; // rule 2
pub mod branch; // rule 6: if
pub mod loops; // rules 13 and 14
