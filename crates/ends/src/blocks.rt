// What words assign, as masks. Behind the ends of a file stand the masks of its whole blocks of 32 words, so that a long
// command is not scanned anew each time that a rule asks what it modifies.
ghost use Rattle.std.specs.Prelude.{◌≡◌, ◌*◌, ◌-◌, ◌/◌, ◌≤◌, length};
ghost use Rattle.ends.specs.Blocks.{called_mask, marks_in, Marks, Blocks, CanBlock, Blocked};

use super::mask::{mark, mask_at, put_mask};
use super::procedures::masks_at;

// The mask of what the words from a place up to another assign. The masks of procedures that they call stand in the list.
pub fn marks(w: &[u32], ends: &[u32], from: usize, to: usize) -> u64
    requires { CanBlock w.now ends.now × (to ≤ length w.now) }
    ensures { result ≡ marks_in (called_mask w.now ends.now) w.now (to - from) from 0 }
{
    let procedures = masks_at(w);
    let mut mask = 0;
    for at in from..to {
        mask = mark(ends, procedures, mask, w[at]);
    }
    mask
}

// The masks of the whole blocks, behind the ends.
pub fn fill_blocks(w: &[u32], ends: &mut [u32])
    requires { CanBlock w.now ends.old }
    ensures { Blocked w.now ends.old ends.new }
{
    let n = w.len();
    for b in 0..n / 32 {
        let mask = marks(w, ends, 32 * b, 32 * b + 32);
        put_mask(ends, n + 2 * b, mask);
    }
}

// The mask of what the blocks from a up to b assign.
fn block_marks(w: &[u32], ends: &[u32], a: usize, b: usize) -> u64
    requires { Blocks w.now ends.now × (a ≤ b) × (b ≤ length w.now / 32) }
    ensures { Marks (called_mask w.now ends.now) w.now (32 * (b - a)) (32 * a) result }
{
    let n = w.len();
    let mut mask = 0;
    for i in a..b {
        mask |= mask_at(ends, n + 2 * i);
    }
    mask
}

// The mask of what the words from a place up to another assign, by whole blocks where there are any between them.
pub fn marks_between(w: &[u32], ends: &[u32], from: usize, to: usize) -> u64
    requires { Blocks w.now ends.now × (to ≤ length w.now) }
    ensures { Marks (called_mask w.now ends.now) w.now (to - from) from result }
{
    let b = to / 32;
    if b <= from / 32 {
        return marks(w, ends, from, to);
    }
    let a = from / 32 + 1;
    let first = marks(w, ends, from, 32 * a);
    let middle = block_marks(w, ends, a, b);
    let last = marks(w, ends, 32 * b, to);
    first | middle | last
}
