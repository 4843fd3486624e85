// The words of a boolean, one after the other.
ghost use Rattle.std.specs.Prelude.{◌≡◌, ◌+◌, ◌<◌, length};
ghost use Rattle.implication.specs.Sides.{RangeFits};
ghost use Rattle.implication.specs.Scanning.{IsRole, Skipped};

use truth_table::{FALSE, TRUE};
use words::kinds::{COMPARISON, KIND, NOT, TRUTH};

// What a word is in a boolean.
#[derive(Clone, Copy, PartialEq, Eq)]
pub enum Role {
    // A connective or a truth, by its byte in a formula.
    Byte(u8),
    // The first word of a comparison.
    Comparison,
    // A word of no boolean.
    Inside,
}

pub fn role_of(x: u32) -> Role
    ensures { IsRole x result }
{
    let kind = x / KIND;
    if kind < COMPARISON || NOT < kind {
        return Role::Inside;
    }
    if kind == COMPARISON {
        return Role::Comparison;
    }
    if kind != TRUTH {
        return Role::Byte((kind + 8) as u8);
    }
    Role::Byte(if x % KIND == 0 { FALSE } else { TRUE })
}

// The first place from a on, and before end, with a word of a boolean. A comparison's words end there.
pub fn skip(w: &[u32], a: usize, end: usize) -> usize
    requires { RangeFits (length w.now) a end }
    ensures { Skipped w.now a end result }
{
    for k in a..end {
        if role_of(w[k]) != Role::Inside {
            return k;
        }
    }
    end
}
