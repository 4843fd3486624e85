// The rules of flow (document 01, rules 1 to 14; document 02, rule 31), at the evidence word at `at`, of kind 33, for the set at p, the
// command at c and the set at q; those of compound commands are in `flow_compound`. `rule_` with a rule's number tries
// its conditions, `child_` gives the goal of its k-th child, 0 the first. They are called alike, so that some do not use
// all that they are given; no rule of flow has an implication of its own, and none uses the context.
#![tactic(auto)]

pub mod atomic; // rules 1, 3, 4 and 5: commands of one step
pub mod consequence; // rules 7 and 8
pub mod union; // rule 9
pub mod unmodified; // rules 10 and 11: what is not modified
pub mod antecedent; // rule 12: sets under an assertion
pub mod call; // rule 31

ghost use Rattle.std.specs.Prelude.{◌≡◌};
ghost use Rattle.goals.specs.Children.{flow_child};
ghost use Rattle.goals.specs.Files.{CanStepIn, StepIn};
ghost use Rattle.goals.specs.declared.Goal.TheVariants.{Flow};
ghost use Rattle.flow_compound.specs.Children.{CanFlowChild};

use antecedent::{child_12, rule_12};
use atomic::{rule_1, rule_3, rule_4, rule_5};
use call::rule_31;
use consequence::{child_7, child_8, rule_7, rule_8};
use flow_compound::branch::{child_6, rule_6};
use flow_compound::loops::{child_13, child_14, rule_13, rule_14};
use flow_compound::sequence::{child_2, rule_2};
use goals::Goal;
use goals::file::File;
use implication::Failure;
use union::{child_9, rule_9};
use unmodified::{child_11, rule_10, rule_11};
use words::kinds::KIND;

// What the conditions of the rule at the evidence word come to.
pub fn flow_condition(file: &File, at: usize, p: usize, c: usize, q: usize) -> Result<(), Failure>
    requires { CanStepIn file.now (Flow p c q) «at» }
    ensures { StepIn file.now (Flow p c q) «at» result }
{
    let rule = file.words[at] % KIND;
    // stays a match on the number: a table of functions would be function pointers, each of which a call has to show that it may call
    match rule {
        1 => rule_1(file, at, p, c, q),
        2 => rule_2(file, at, p, c, q),
        3 => rule_3(file, at, p, c, q),
        4 => rule_4(file, at, p, c, q),
        5 => rule_5(file, at, p, c, q),
        6 => rule_6(file, at, p, c, q),
        7 => rule_7(file, at, p, c, q),
        8 => rule_8(file, at, p, c, q),
        9 => rule_9(file, at, p, c, q),
        10 => rule_10(file, at, p, c, q),
        11 => rule_11(file, at, p, c, q),
        12 => rule_12(file, at, p, c, q),
        13 => rule_13(file, at, p, c, q),
        14 => rule_14(file, at, p, c, q),
        // a reader lets no other rule pass
        _ => rule_31(file, at, p, c, q),
    }
}

// The goal of the k-th child of a rule.
pub fn flow_child(
    ends: &[u32],
    rule: u32,
    at: usize,
    p: usize,
    c: usize,
    q: usize,
    k: usize,
) -> Goal
    requires { CanFlowChild ends.now rule p c q «at» k }
    ensures { result ≡ flow_child ends.now p c q rule «at» k }
{
    // stays a match, as above
    match rule {
        2 => child_2(ends, at, p, c, q, k),
        6 => child_6(ends, at, p, c, q, k),
        7 => child_7(ends, at, p, c, q, k),
        8 => child_8(ends, at, p, c, q, k),
        9 => child_9(ends, at, p, c, q, k),
        11 => child_11(ends, at, p, c, q, k),
        12 => child_12(ends, at, p, c, q, k),
        13 => child_13(ends, at, p, c, q, k),
        // no other rule has children
        _ => child_14(ends, at, p, c, q, k),
    }
}
