ghost use Rattle.std.specs.Prelude.{◌≡◌, ◌<◌, length};
ghost use Rattle.sets.specs.Items.{written_halves};
ghost use Rattle.sets.specs.Lists.{written, stands_in, within_all};
ghost use Rattle.sets.specs.Piles.{count_at, pile_numbers, piles_numbers};
ghost use Rattle.sets.specs.Piles.{CanSearch, CanSearchAll, CanKeepPile, CanKeepAll};

use crate::item::{View, pair_item, same_pair};
use crate::member::{has_item, in_rest, in_seen, rest_in, seen_in};
use crate::members::Members;
use words::kinds::KIND;

// A set that a rule makes: one member by the places of its antecedent and its consequent; the written set at a place, seen
// as a view says; the written set at a place without the members of another.
#[derive(Clone, Copy, Debug, PartialEq, Eq)]
pub enum Pile {
    One(usize, usize),
    Set(usize, View),
    Without(usize, usize),
}

// The number of members of the written set at q.
pub fn count(w: &[u32], q: usize) -> usize
    requires { q < length w.now }
    ensures { result ≡ count_at w.now q }
{
    let x = w[q] % KIND;
    x as usize
}

// Whether the written member at x stands in the pile.
fn in_pile(w: &[u32], ends: &[u32], x: usize, pile: Pile) -> bool
    requires { CanSearch w.now ends.now x pile }
    ensures { result ≡ stands_in (written_halves w.now ends.now x)
        (pile_numbers w.now ends.now pile) }
{
    match pile {
        Pile::One(f, b) => same_pair(w, ends, x, f, b),
        Pile::Set(q, view) => {
            let k = count(w, q);
            in_seen(w, ends, x, k, q + 1, view)
        }
        Pile::Without(t, s) => {
            let k = count(w, t);
            let l = count(w, s);
            in_rest(w, ends, x, l, s + 1, k, t + 1)
        }
    }
}

// Whether each member of the pile is one of the k written members at `at`.
fn pile_in(w: &[u32], ends: &[u32], pile: Pile, k: usize, at: usize) -> bool
    requires { CanKeepPile w.now ends.now pile k «at» }
    ensures { result ≡ within_all (pile_numbers w.now ends.now pile)
        (written w.now ends.now k «at») }
{
    match pile {
        Pile::One(f, b) => has_item(w, ends, k, at, pair_item(f, b)),
        Pile::Set(q, view) => {
            let j = count(w, q);
            seen_in(w, ends, j, q + 1, view, k, at)
        }
        Pile::Without(t, s) => {
            let j = count(w, t);
            let l = count(w, s);
            rest_in(w, ends, j, t + 1, l, s + 1, k, at)
        }
    }
}

// Whether the written member at x stands in one of the piles.
fn in_piles(w: &[u32], ends: &[u32], x: usize, piles: &[Pile]) -> bool
    requires { CanSearchAll w.now ends.now x piles.now }
    ensures { result ≡ stands_in (written_halves w.now ends.now x)
        (piles_numbers w.now ends.now piles.now) }
{
    piles.iter().any(|pile| in_pile(w, ends, x, *pile))
}

// Whether each member of the piles is one of the k written members at `at`.
pub fn piles_in(w: &[u32], ends: &[u32], piles: &[Pile], k: usize, at: usize) -> bool
    requires { CanKeepAll w.now ends.now piles.now k «at» }
    ensures { result ≡ within_all (piles_numbers w.now ends.now piles.now)
        (written w.now ends.now k «at») }
{
    piles.iter().all(|pile| pile_in(w, ends, *pile, k, at))
}

// Whether each of the k written members at `at` stands in one of the piles.
pub fn set_in(w: &[u32], ends: &[u32], k: usize, at: usize, piles: &[Pile]) -> bool
    requires { CanKeepAll w.now ends.now piles.now k «at» }
    ensures { result ≡ within_all (written w.now ends.now k «at»)
        (piles_numbers w.now ends.now piles.now) }
{
    Members::new(ends, k, at).all(|i| in_piles(w, ends, i, piles))
}
