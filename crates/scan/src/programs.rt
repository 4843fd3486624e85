// The masks of what the procedures of a file modify, in the list of ends.
ghost use Rattle.std.specs.Prelude.{◌≡◌};
ghost use Rattle.ends.specs.Blocks.{CanBlock};
ghost use Rattle.scan.specs.Programs.{procedure_count, Masked};

use ends::blocks::marks;
use ends::end_or_zero;
use ends::mask::put_mask;
use ends::procedures::{masks_at, start_at};
use std::cmp::min;
use words::kinds::{KIND, PROCEDURES};

// How many procedures a file has: word 1 is 62:k if it has any.
pub fn procedure_count(w: &[u32]) -> usize
    ensures { result ≡ procedure_count w.now }
{
    let word = w.get(1).copied().unwrap_or(0);
    if word / KIND == PROCEDURES {
        min((word % KIND) as usize, 16)
    } else {
        0
    }
}

// The masks of what the procedures modify, in order, so that calls find the masks of lower numbers. The ends of the words and the
// starts of the programs are in the table.
pub fn fill_masks(w: &[u32], table: &mut [u32])
    requires { CanBlock w.now table.old }
    ensures { Masked w.now table.old table.new }
{
    let masks = masks_at(w);
    for i in 0..procedure_count(w) {
        let from = start_at(w, table, i);
        let to = min(end_or_zero(table, from), w.len());
        let mask = marks(w, table, from, to);
        put_mask(table, masks + 2 * i, mask);
    }
}
