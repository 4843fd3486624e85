// The rules of implications between sets (document 01, rules 13 to 19 of sets), tried at an evidence word of kind 34;
// those of unions are in `set_unions`. All take the same, also what a rule does not ask for: the file, the place of
// the evidence word, and the places p and q of the two sets.
#![tactic(auto)]

pub mod inclusion; // rule 13: a part of a set
pub mod empty; // rules 14 and 15: from the empty set
pub mod antecedent; // rule 18: a stronger antecedent
pub mod operand; // rule 19: an expression by its operands

ghost use Rattle.std.specs.Prelude.{◌≡◌, ◌<◌, length};
ghost use Rattle.goals.specs.Children.{of_rule, set_children, set_child};
ghost use Rattle.goals.specs.Files.{CanStepIn, StepIn};
ghost use Rattle.goals.specs.declared.Goal.TheVariants.{Set};

use antecedent::rule_18;
use empty::{rule_14, rule_15};
use goals::Goal;
use goals::file::File;
use implication::Failure;
use inclusion::rule_13;
use operand::rule_19;
use set_unions::union::{child_16, child_17, rule_16, rule_17};
use words::kinds::KIND;

// What the conditions of the rule of the evidence word at `at` come to.
pub fn set_condition(file: &File, at: usize, p: usize, q: usize) -> Result<(), Failure>
    requires { CanStepIn file.now (Set p q) «at» }
    ensures { StepIn file.now (Set p q) «at» result }
{
    let rule = file.words[at] % KIND;
    // stays a match on the number: a table of functions would be function pointers, each of which a call has to show that it may call
    match rule {
        13 => rule_13(file, at, p, q),
        14 => rule_14(file, at, p, q),
        15 => rule_15(file, at, p, q),
        16 => rule_16(file, at, p, q),
        17 => rule_17(file, at, p, q),
        18 => rule_18(file, at, p, q),
        // a reader lets no other rule pass
        _ => rule_19(file, at, p, q),
    }
}

// The goal of child k of a rule that has children.
pub fn set_child(ends: &[u32], rule: u32, at: usize, p: usize, q: usize, k: usize) -> Goal
    requires { («at» < 8192) × (k < length (of_rule rule (set_children ends.now p q «at»))) }
    ensures { result ≡ set_child ends.now p q rule «at» k }
{
    // stays a match, as above
    match rule {
        16 => child_16(ends, at, p, q, k),
        _ => child_17(ends, at, p, q, k),
    }
}
