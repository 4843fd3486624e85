// The rules of unions of sets (document 01, rules 16 and 17 of sets), tried at an evidence word of kind 34. Both take the
// same: the file, the place of the evidence word, and the places p and q of the two sets.
#![tactic(auto)]

pub mod union; // rules 16 and 17: sets together
