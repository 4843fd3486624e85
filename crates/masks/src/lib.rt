// What each command of a file modifies, as masks in a lent list (document 02, request [5]).
#![tactic(auto)]

pub mod lent; // lent.rt: refusal 17

ghost use Rattle.std.specs.Prelude.{◌≡◌, false, ◌+◌, ◌/◌};
ghost use Rattle.ends.specs.Places.{end_at};
ghost use Rattle.scan.specs.Scan.{Modified};
ghost use Rattle.layout.specs.Bytes.{payloads};
ghost use Rattle.masks.specs.Filled.{OtherKind, RangeMarks, CanMask, CanStore, Filled, CanAsk};

use ends::mask::mark;
use ends::procedures::masks_at;
use ends::{end_at, parts};
use scan::range::modified;
use words::kinds::{CALL, FOR, KIND, SKIP};

// What the parts of the word at a place modify, by the masks of the words after it: those of expressions are 0.
fn parts_mask(w: &[u32], ends: &[u32], masks: &[u64], at: usize) -> u64
    requires { CanMask w.now ends.now masks.now «at» }
    ensures { RangeMarks w.now ends.now («at» + 1) «at» result }
{
    let mut next = at + 1;
    let mut mask = 0;
    for _ in 0..parts(w[at]) {
        if w.len() <= next {
            return mask;
        }
        mask |= masks[next];
        next = end_at(ends, next);
    }
    mask
}

// Whether a command can start with a word: kinds 24 to 31 and 38.
fn starts_command(x: u32) -> bool
    ensures { result ≡ false → OtherKind (x / payloads) }
{
    matches!(x / KIND, SKIP..=FOR | CALL)
}

// The masks of all words, from the last to the first. What stands behind them is kept.
pub fn fill(w: &[u32], ends: &[u32], masks: &mut [u64])
    requires { CanStore w.now ends.now masks.old }
    ensures { Filled w.now ends.now masks.old masks.new }
{
    let procedures = masks_at(w);
    for i in (0..w.len()).rev() {
        if !starts_command(w[i]) {
            masks[i] = 0;
            continue;
        }
        let mask = parts_mask(w, ends, masks, i);
        masks[i] = mark(ends, procedures, mask, w[i]);
    }
}

// What the command at a place modifies: its mask, where masks are stored.
pub fn modified_at(w: &[u32], ends: &[u32], masks: &[u64], c: usize) -> u64
    requires { CanAsk w.now ends.now masks.now c }
    ensures { Modified w.now ends.now c (end_at ends.now c) result }
{
    match masks.get(c) {
        Some(mask) => *mask,
        None => modified(w, ends, c, end_at(ends, c)),
    }
}
