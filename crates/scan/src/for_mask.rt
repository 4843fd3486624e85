// What the `for`s of a file count with, and where they stand.
ghost use Rattle.scan.specs.ForsMask.{ForsFound};

use super::pass::pass;
use ends::end_or_zero;
use ends::mask::with_bit;
use std::cmp::min;
use words::kinds::{FOR, KIND};

// The mask of q and m of each `for`, and two places: before `first` there is no `for`, and from `past` on there is none. `words` is how
// many words all `for`s have, those inside several counted for each: it decides only how refusal 7 is tested.
#[derive(Clone, Copy)]
pub struct Fors {
    pub mask: u64,
    pub words: usize,
    pub first: usize,
    pub past: usize,
}

// So many words, and those of a `for` at a place up to its end. Each number counts as at most 8,192, the most words of a file, so that no
// sum is too large.
fn with_body(words: usize, at: usize, end: usize) -> usize {
    if end <= at {
        return words;
    }
    min(words, 8192) + min(end - at, 8192)
}

// Of the programs and of the evidence. Most files have few.
pub fn find_fors(w: &[u32], ends: &[u32]) -> Fors
    ensures { ForsFound w.now result }
{
    let mut mask = 0;
    let mut words: usize = 0;
    let first = pass(w, 0, FOR);
    let mut past: usize = 0;
    // stays a `while`: no range has the places at which `pass` stops
    let mut at = first;
    while at < w.len() {
        if w[at] / KIND != FOR {
            at += 1;
            continue;
        }
        let payload = w[at] % KIND;
        mask = with_bit(mask, payload % 32);
        mask = with_bit(mask, payload / 32 % 32);
        let end = end_or_zero(ends, at);
        words = with_body(words, at, end);
        past = at + 1;
        at = pass(w, past, FOR);
    }
    Fors {
        mask,
        words,
        first,
        past,
    }
}
