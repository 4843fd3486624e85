// The rules of necessary preconditions (document 01, rules 20 to 30; document 02, rule 32), tried at an evidence word of kind 35; those of
// compound commands are in `pre_compound`. All take the same, also what a rule does not ask for: the file, the place
// of the evidence word, and the places f, c and g of the assertion, the command and the other assertion.
#![tactic(auto)]

pub mod command; // rules 22, 24, 25 and 26: commands of one step
pub mod unmodified; // rule 27: what a command does not modify
pub mod consequence; // rules 28 and 29: a stronger assertion, and true
pub mod call; // rule 32

ghost use Rattle.std.specs.Prelude.{◌≡◌};
ghost use Rattle.goals.specs.Children.{child_at};
ghost use Rattle.goals.specs.Files.{CanStepIn, StepIn};
ghost use Rattle.goals.specs.declared.Goal.TheVariants.{Pre};
ghost use Rattle.pre_compound.specs.Children.{CanPreChild};

use call::{child_32, rule_32};
use command::{rule_22, rule_24, rule_25, rule_26};
use consequence::{child_28, rule_28, rule_29};
use goals::Goal;
use goals::file::File;
use implication::Failure;
use pre_compound::branch::{child_20, rule_20};
use pre_compound::iteration::{child_21, child_30, rule_21, rule_30};
use pre_compound::sequence::{child_23, rule_23};
use unmodified::rule_27;
use words::kinds::KIND;

// What the conditions of the rule of the evidence word at `at` come to.
pub fn pre_condition(file: &File, at: usize, f: usize, c: usize, g: usize) -> Result<(), Failure>
    requires { CanStepIn file.now (Pre f c g) «at» }
    ensures { StepIn file.now (Pre f c g) «at» result }
{
    let rule = file.words[at] % KIND;
    // stays a match on the number: a table of functions would be function pointers, each of which a call has to show that it may call
    match rule {
        20 => rule_20(file, at, f, c, g),
        21 => rule_21(file, at, f, c, g),
        22 => rule_22(file, at, f, c, g),
        23 => rule_23(file, at, f, c, g),
        24 => rule_24(file, at, f, c, g),
        25 => rule_25(file, at, f, c, g),
        26 => rule_26(file, at, f, c, g),
        27 => rule_27(file, at, f, c, g),
        28 => rule_28(file, at, f, c, g),
        29 => rule_29(file, at, f, c, g),
        30 => rule_30(file, at, f, c, g),
        // a reader lets no other rule pass
        _ => rule_32(file, at, f, c, g),
    }
}

// The goal of child k of a rule that has children.
pub fn pre_child(file: &File, rule: u32, at: usize, f: usize, c: usize, g: usize, k: usize) -> Goal
    requires { CanPreChild file.now.words.now file.now.ends.now rule f c g «at» k }
    ensures { result ≡ child_at file.now.words.now file.now.ends.now (Pre f c g) rule «at» k }
{
    // stays a match, as above
    match rule {
        20 => child_20(file, at, f, c, g, k),
        21 => child_21(file, at, f, c, g, k),
        23 => child_23(file, at, f, c, g, k),
        28 => child_28(file, at, f, c, g, k),
        30 => child_30(file, at, f, c, g, k),
        _ => child_32(file, at, f, c, g, k),
    }
}
