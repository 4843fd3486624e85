ghost use Rattle.std.specs.Prelude.{◌≡◌};
ghost use Rattle.sets.specs.Lists.{same_all};
ghost use Rattle.sets.specs.Piles.{written_set, piles_numbers, CanSamePiles};
ghost use Rattle.sets.specs.Trees.{CanSameSet, SameSet};

use crate::align::aligned;
use crate::pile::{Pile, count, piles_in, set_in};

// Whether the members of the written set at p are those of the piles. Members in the same order are found at once.
fn same_members(w: &[u32], ends: &[u32], p: usize, piles: &[Pile]) -> bool
    requires { CanSamePiles w.now ends.now p piles.now }
    ensures { result ≡ same_all (written_set w.now ends.now p)
        (piles_numbers w.now ends.now piles.now) }
{
    let k = count(w, p);
    let at = p + 1;
    if aligned(w, ends, k, at, piles) {
        return true;
    }
    if !set_in(w, ends, k, at, piles) {
        return false;
    }
    piles_in(w, ends, piles, k, at)
}

// Whether the written set at p is the same as the piles together.
pub fn same_set(w: &[u32], ends: &[u32], p: usize, piles: &[Pile]) -> bool
    requires { CanSameSet w.now ends.now p piles.now }
    ensures { SameSet w.now ends.now p piles.now result }
{
    same_members(w, ends, p, piles)
}
