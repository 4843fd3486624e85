ghost use Rattle.std.specs.Prelude.{[], ◌∷◌};
ghost use Rattle.sets.specs.Items.{pair_item, item_halves};
ghost use Rattle.sets.specs.Lists.{seen_all};
ghost use Rattle.sets.specs.Piles.{pile_numbers, CanKeepAll};
ghost use Rattle.sets.specs.Aligned.{Aligns, Aligned, CanAlign, CanAlignOne, CanAlignPile};

use crate::item::{View, same_pair, same_seen};
use crate::members::Members;
use crate::pile::{Pile, count};

// Where the first of the members in `rest` are the k members at `from` seen as the view says, in order, the others of them.
fn align_seen<'a>(
    w: &[u32],
    ends: &[u32],
    mut rest: Members<'a>,
    k: usize,
    from: usize,
    view: View,
) -> Option<Members<'a>>
    requires { CanAlign w.now ends.now rest k from view }
    ensures { Aligns w.now ends.now rest.entry (seen_all w.now ends.now view k from) result }
{
    for a in Members::new(ends, k, from) {
        let i = rest.next()?;
        if !same_seen(w, ends, i, a, view) {
            return None;
        }
    }
    Some(rest)
}

// Where the first of them is the member by its two places.
fn align_one<'a>(
    w: &[u32],
    ends: &[u32],
    mut rest: Members<'a>,
    f: usize,
    b: usize,
) -> Option<Members<'a>>
    requires { CanAlignOne w.now ends.now rest f b }
    ensures { Aligns w.now ends.now rest.entry (item_halves w.now ends.now (pair_item f b) ∷ []) result }
{
    let i = rest.next()?;
    if !same_pair(w, ends, i, f, b) {
        return None;
    }
    Some(rest)
}

// Where the first of them are those of the pile. A pile without some members is left to the search.
fn align_pile<'a>(w: &[u32], ends: &[u32], rest: Members<'a>, pile: Pile) -> Option<Members<'a>>
    requires { CanAlignPile w.now ends.now rest pile }
    ensures { Aligns w.now ends.now rest.entry (pile_numbers w.now ends.now pile) result }
{
    match pile {
        Pile::One(f, b) => align_one(w, ends, rest, f, b),
        Pile::Set(q, view) => {
            let k = count(w, q);
            align_seen(w, ends, rest, k, q + 1, view)
        }
        Pile::Without(_, _) => None,
    }
}

// Whether the k written members at `at` are those of the piles in order; if not, nothing is known.
pub fn aligned(w: &[u32], ends: &[u32], k: usize, at: usize, piles: &[Pile]) -> bool
    requires { CanKeepAll w.now ends.now piles.now k «at» }
    ensures { Aligned w.now ends.now k «at» piles.now result }
{
    let mut rest = Members::new(ends, k, at);
    for pile in piles {
        let Some(others) = align_pile(w, ends, rest, *pile) else {
            return false;
        };
        rest = others;
    }
    rest.is_empty()
}
