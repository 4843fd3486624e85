// Refusal 7 (document 01, "Judging order"): a `for` has q = m or a body that modifies q or m.
ghost use Rattle.std.specs.Prelude.{◌-◌};
ghost use Rattle.ends.specs.Blocks.{called_mask, Marks};
ghost use Rattle.scan.specs.Pass.{Passed};
ghost use Rattle.scan.specs.Steady.{CanMarkBody, CanTestFor, CanScanFors, Tested, FirstFound};

use super::pass::pass;
use ends::blocks::{marks, marks_between};
use ends::mask::has_bit;
use std::cmp::min;
use words::kinds::{FOR, KIND};

// The mask of what a body assigns, by the masks of blocks where these are filled.
fn body_mask(w: &[u32], ends: &[u32], from: usize, to: usize, blocked: bool) -> u64
    requires { CanMarkBody w.now ends.now to blocked }
    ensures { Marks (called_mask w.now ends.now) w.now (to - from) from result }
{
    if blocked {
        marks_between(w, ends, from, to)
    } else {
        marks(w, ends, from, to)
    }
}

// Whether the `for` at a place is such.
fn unsteady_at(w: &[u32], ends: &[u32], at: usize, blocked: bool) -> bool
    requires { CanTestFor w.now ends.now «at» blocked }
    ensures { Tested w.now ends.now «at» result }
{
    let payload = w[at] % KIND;
    let q = payload % 32;
    let m = payload / 32;
    if q == m {
        return true;
    }
    let end = min(ends[at] as usize, w.len());
    let body = body_mask(w, ends, at + 1, end, blocked);
    if has_bit(body, q) {
        return true;
    }
    has_bit(body, m % 32)
}

// A place from the given one on, before which there is no `for`. Words are passed only where the given place is before `to`.
fn next_for(w: &[u32], from: usize, to: usize) -> usize
    ensures { Passed w.now 31 from result }
{
    if to <= from {
        return from;
    }
    pass(w, from, FOR)
}

// The place of the first such `for`, of the program or of the evidence, if there is one, where all `for`s stand from a place up to another.
// Most files have few.
pub fn first_unsteady(
    w: &[u32],
    ends: &[u32],
    from: usize,
    to: usize,
    blocked: bool,
) -> Option<usize>
    requires { CanScanFors w.now ends.now from to blocked }
    ensures { FirstFound w.now ends.now result }
{
    let start = min(from, w.len());
    let end = min(to, w.len());
    // stays a `while`: no range has the places at which `next_for` stops
    let mut at = next_for(w, start, end);
    while at < end {
        if w[at] / KIND != FOR {
            at += 1;
            continue;
        }
        if unsteady_at(w, ends, at, blocked) {
            return Some(at);
        }
        at = next_for(w, at + 1, end);
    }
    None
}
