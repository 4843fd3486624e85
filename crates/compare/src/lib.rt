// The two halves of a member compared, its antecedent by plain forms and its consequent by words, each by a function of its own.
#![tactic(auto)]

pub mod start; // where the plain form of a boolean starts
pub mod plain; // booleans compared by their plain forms
pub mod antecedent; // an antecedent, or an assertion of rules 20 to 32, compared with one that a rule forms
pub mod consequent; // a consequent compared with one that a rule forms
