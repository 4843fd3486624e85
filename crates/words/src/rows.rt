// The table of rules (document 01, "Rules"; document 02, request [3]): what stands after the word of each, what it carries and then its children.
ghost use Rattle.std.specs.Prelude.{◌≡◌};
ghost use Rattle.rules.specs.Evidence.{flow, implication, precondition};
ghost use Rattle.words.specs.Rows.{row_of, row_due, row_meant, judgement_meant};

use super::Judgement;
use super::Judgement::{Flow, Implication, Precondition};
use super::kinds::{FLOW, IMPLICATION, PRECONDITION};
use Item::{Assertion, Child, Command, Members};

// What may stand after an evidence word: a boolean, a command, a set; evidence of a judgement.
#[derive(Clone, Copy, Debug, PartialEq, Eq)]
pub enum Item {
    Assertion,
    Command,
    Members,
    Child(Judgement),
}

// Rules of kind 33 by their numbers.
pub fn flow_row(rule: u32) -> Option<&'static [Item]>
    ensures { row_meant result ≡ row_of flow rule }
{
    match rule {
        1 => Some(&[]),
        2 => Some(&[Members, Child(Flow), Child(Flow)]),
        3 => Some(&[]),
        4 => Some(&[]),
        5 => Some(&[]),
        6 => Some(&[
            Members,
            Members,
            Assertion,
            Child(Flow),
            Child(Flow),
            Child(Precondition),
        ]),
        7 => Some(&[Members, Child(Implication), Child(Flow)]),
        8 => Some(&[Members, Child(Flow), Child(Implication)]),
        9 => Some(&[Members, Members, Members, Members, Child(Flow), Child(Flow)]),
        10 => Some(&[]),
        11 => Some(&[Child(Precondition)]),
        12 => Some(&[
            Members,
            Members,
            Assertion,
            Assertion,
            Child(Flow),
            Child(Precondition),
        ]),
        13 => Some(&[Child(Flow)]),
        14 => Some(&[Command, Child(Flow)]),
        31 => Some(&[]),
        _ => None,
    }
}

// Rules of kind 34.
pub fn set_row(rule: u32) -> Option<&'static [Item]>
    ensures { row_meant result ≡ row_of implication rule }
{
    match rule {
        13 => Some(&[]),
        14 => Some(&[]),
        15 => Some(&[]),
        16 => Some(&[
            Members,
            Members,
            Members,
            Members,
            Child(Implication),
            Child(Implication),
        ]),
        17 => Some(&[
            Members,
            Members,
            Members,
            Child(Implication),
            Child(Implication),
        ]),
        18 => Some(&[]),
        19 => Some(&[]),
        _ => None,
    }
}

// Rules of kind 35.
pub fn pre_row(rule: u32) -> Option<&'static [Item]>
    ensures { row_meant result ≡ row_of precondition rule }
{
    match rule {
        20 => Some(&[
            Assertion,
            Assertion,
            Child(Precondition),
            Child(Precondition),
        ]),
        21 => Some(&[Assertion, Child(Precondition)]),
        22 => Some(&[]),
        23 => Some(&[Assertion, Child(Precondition), Child(Precondition)]),
        24 => Some(&[]),
        25 => Some(&[]),
        26 => Some(&[]),
        27 => Some(&[]),
        28 => Some(&[Assertion, Child(Precondition)]),
        29 => Some(&[]),
        30 => Some(&[Command, Child(Precondition)]),
        32 => Some(&[Child(Precondition)]),
        _ => None,
    }
}

// The row of a word where evidence of the judgement is due. A word of another kind has none.
#[tactic(auto, unfolding(crate::specs::Rows::row_due))]
pub fn evidence_row(judgement: Judgement, kind: u32, payload: u32) -> Option<&'static [Item]>
    ensures { row_meant result ≡ row_due (judgement_meant judgement) kind payload }
{
    match judgement {
        Flow if kind == FLOW => flow_row(payload),
        Implication if kind == IMPLICATION => set_row(payload),
        Precondition if kind == PRECONDITION => pre_row(payload),
        _ => None,
    }
}
