ghost use Rattle.std.specs.Prelude.{◌≡◌, true, []};
ghost use Rattle.sets.specs.Members.{CanPassAll, places_left, StartsAt};

use crate::item::past_member;

// The places of so many members that stand one after the other.
#[derive(Clone, Copy, Debug)]
pub struct Members<'a> {
    ends: &'a [u32],
    left: usize,
    at: usize,
}

impl<'a> Members<'a> {
    // The k members at `at`.
    pub fn new(ends: &'a [u32], k: usize, at: usize) -> Members<'a>
        ensures { StartsAt ends.now k «at» result }
    {
        Members { ends, left: k, at }
    }

    // Whether none is left.
    pub(crate) fn is_empty(&self) -> bool
        ensures { result ≡ true → places_left self.now ≡ [] }
    {
        self.left == 0
    }
}

impl<'a> Iterator for Members<'a> {
    ghost use Rattle.std.specs.Iterator.{YieldsFirst, item_count};

    type Item = usize;

    ghost can_next = { λ s. CanPassAll s.ends.now s.left s.«at» };

    ghost next_gives = { YieldsFirst places_left };

    ghost remaining = { item_count places_left };

    #[inline(always)]
    fn next(&mut self) -> Option<usize> {
        if self.left == 0 {
            return None;
        }
        let at = self.at;
        self.at = past_member(self.ends, at);
        self.left -= 1;
        Some(at)
    }
}
