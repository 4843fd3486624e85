// Where each expression, command and set of a file ends, found in one pass from the last word to the first, and what its
// words assign.
#![tactic(auto)]

pub mod mask; // mask.rt: identifiers as the bits of a number
pub mod blocks; // blocks.rt: what words assign, by blocks
pub mod mend; // mend.rt: the ends of some words, written anew
pub mod procedures; // procedures.rt: where those of a file start, and their masks

ghost use Rattle.std.specs.Prelude.{◌≡◌, ◌/◌, ◌%◌, ◌<◌, ◌≤◌, length, get_or};
ghost use Rattle.layout.specs.Bytes.{payloads};
ghost use Rattle.layout.specs.Nodes.{count_of};
ghost use Rattle.ends.specs.Sizes.{follow, CanFill, Filled};

use mend::mend_ends;
use words::kinds::{
    AND, ASSERT, COMPARISON, FOR, IF, KIND, NOT, OPERATOR, OR, SELECT, SEQUENCE, SET, TO_ARRAY,
    TO_SCALAR, UPDATE, WHILE,
};

// The place past the part that starts at `at`, by a list of ends.
pub fn end_at(ends: &[u32], at: usize) -> usize
    requires { «at» < length ends.now }
    ensures { result ≡ get_or ends.now «at» 0 }
{
    ends[at] as usize
}

// The same of any place: 0 past the list. It stays beside `end_at`, which asks for a place in the list and tests none.
pub fn end_or_zero(ends: &[u32], place: usize) -> usize
    ensures { result ≡ get_or ends.now place 0 }
{
    ends.get(place).copied().unwrap_or(0) as usize
}

// How many expressions and commands follow a word (document 01, "Layout").
#[tactic(auto, unfolding(layout::specs::Nodes::count_of))]
pub fn parts(x: u32) -> usize
    ensures { result ≡ count_of (x / payloads) (x % payloads) }
{
    let kind = x / KIND;
    match kind {
        OPERATOR => 2,
        SELECT => 2,
        COMPARISON => 2,
        AND => 2,
        OR => 2,
        NOT => 1,
        UPDATE => 3,
        SEQUENCE => 2,
        ASSERT => 1,
        TO_SCALAR => 1,
        TO_ARRAY => 1,
        IF => 3,
        WHILE => 2,
        FOR => 1,
        SET => 2 * ((x % KIND) as usize),
        _ => 0,
    }
}

// From a place on, past so many parts, or to the end of the words.
pub fn past(ends: &[u32], words: usize, from: usize, count: usize) -> usize
    requires { words ≤ length ends.now }
    ensures { result ≡ follow ends.now words count from }
{
    let mut at = from;
    for _ in 0..count {
        if words <= at {
            return at;
        }
        at = ends[at] as usize;
    }
    at
}

// The ends of all that starts in the words. What stands behind them is kept.
pub fn fill_ends(w: &[u32], ends: &mut [u32])
    requires { CanFill w.now ends.old }
    ensures { Filled w.now ends.old ends.new }
{
    mend_ends(w, ends, 0, w.len());
}
