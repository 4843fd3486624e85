ghost use Rattle.std.specs.Prelude.{◌≡◌, not, ◌&&◌, ◌||◌};
ghost use Rattle.sets.specs.Items.{item_halves, written_halves, same_halves};
ghost use Rattle.sets.specs.Lists.{seen_all, written, stands_in, within_all, listed_in, without_all};
ghost use Rattle.sets.specs.Standing.{CanFind, CanLook, CanHold, CanEither, CanRest, CanLeave};
ghost use Rattle.sets.specs.declared.item.View.TheVariants.{AsWritten};

use crate::item::{FormedMember, View, same_item, same_seen, same_words, seen_item};
use crate::members::Members;

// Whether the item is one of the k written members at `at`.
pub fn has_item(w: &[u32], ends: &[u32], k: usize, at: usize, item: FormedMember) -> bool
    requires { CanFind w.now ends.now k «at» item }
    ensures { result ≡ stands_in (item_halves w.now ends.now item)
        (written w.now ends.now k «at») }
{
    Members::new(ends, k, at).any(|i| same_item(w, ends, i, item))
}

// Whether the written member at x is one of the k members at `at` seen as the view says.
pub fn in_seen(w: &[u32], ends: &[u32], x: usize, k: usize, at: usize, view: View) -> bool
    requires { CanLook w.now ends.now x k «at» view }
    ensures { result ≡ stands_in (written_halves w.now ends.now x)
        (seen_all w.now ends.now view k «at») }
{
    Members::new(ends, k, at).any(|i| same_seen(w, ends, x, i, view))
}

// Whether each of the j members at `from`, seen as the view says, is one of the k written members at `at`.
pub fn seen_in(
    w: &[u32],
    ends: &[u32],
    j: usize,
    from: usize,
    view: View,
    k: usize,
    at: usize,
) -> bool
    requires { CanHold w.now ends.now j from view k «at» }
    ensures { result ≡ within_all (seen_all w.now ends.now view j from)
        (written w.now ends.now k «at») }
{
    Members::new(ends, j, from).all(|i| has_item(w, ends, k, at, seen_item(ends, i, view)))
}

// Whether the written member at x is, by words, one of the l members at `leave` (rule 17's "without").
fn is_listed(w: &[u32], ends: &[u32], x: usize, l: usize, leave: usize) -> bool
    requires { CanLook w.now ends.now x l leave AsWritten }
    ensures { result ≡ listed_in (written_halves w.now ends.now x)
        (written w.now ends.now l leave) }
{
    Members::new(ends, l, leave).any(|i| same_words(w, ends, x, i))
}

// Whether the written member at x stands among the k members at `at`, or is listed among the l members at `leave`.
fn has_either(
    w: &[u32],
    ends: &[u32],
    x: usize,
    l: usize,
    leave: usize,
    k: usize,
    at: usize,
) -> bool
    requires { CanEither w.now ends.now x l leave k «at» }
    ensures { result ≡ (stands_in (written_halves w.now ends.now x)
        (written w.now ends.now k «at»)
        || listed_in (written_halves w.now ends.now x)
        (written w.now ends.now l leave)) }
{
    has_item(w, ends, k, at, seen_item(ends, x, View::AsWritten)) || is_listed(w, ends, x, l, leave)
}

// Whether each of the j members at `from`, without those that are listed among the l members at `leave`, is one of the k written
// members at `at`.
pub fn rest_in(
    w: &[u32],
    ends: &[u32],
    j: usize,
    from: usize,
    l: usize,
    leave: usize,
    k: usize,
    at: usize,
) -> bool
    requires { CanRest w.now ends.now j from l leave k «at» }
    ensures { result ≡ within_all
        (without_all (written w.now ends.now j from) (written w.now ends.now l leave))
        (written w.now ends.now k «at») }
{
    Members::new(ends, j, from).all(|i| has_either(w, ends, i, l, leave, k, at))
}

// Whether the written member at x is the one at a, and that one is not listed among the l members at `leave`.
fn is_left(w: &[u32], ends: &[u32], x: usize, a: usize, l: usize, leave: usize) -> bool
    requires { CanLeave w.now ends.now x a l leave }
    ensures { result ≡ (same_halves (written_halves w.now ends.now x)
        (written_halves w.now ends.now a)
        && not (listed_in (written_halves w.now ends.now a)
        (written w.now ends.now l leave))) }
{
    same_seen(w, ends, x, a, View::AsWritten) && !is_listed(w, ends, a, l, leave)
}

// Whether the written member at x stands among the k members at `at` without those that are listed among the l members at `leave`.
// A member that is listed may have the same plain form as one that is not.
pub fn in_rest(
    w: &[u32],
    ends: &[u32],
    x: usize,
    l: usize,
    leave: usize,
    k: usize,
    at: usize,
) -> bool
    requires { CanEither w.now ends.now x l leave k «at» }
    ensures { result ≡ stands_in (written_halves w.now ends.now x)
        (without_all (written w.now ends.now k «at») (written w.now ends.now l leave)) }
{
    Members::new(ends, k, at).any(|i| is_left(w, ends, x, i, l, leave))
}
