// Written sets compared as the rules need them: antecedents by plain forms, consequents by words.
#![tactic(auto)]

pub mod item; // a member as the rules make it, compared with a written one
pub mod members; // the places of members, one after the other
pub mod member; // members looked for among written ones
pub mod pile; // members looked for in the sets that the rules make
pub mod align; // members in the same order
pub mod set; // a written set compared with the sets that a rule makes
pub mod rule; // the conditions of the rules on sets
