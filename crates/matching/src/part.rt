ghost use Rattle.std.specs.Prelude.{◌≡◌, ◌<◌, length};
ghost use Rattle.matching.specs.Matching.{matched, came, same_numbers};
ghost use Rattle.ends.specs.Places.{end_at, PartKnown};
ghost use Rattle.matching.specs.Places.{part};

use crate::cursor::{Match, match_range};
use crate::equal::same_words;
use ends::end_at;

// Past the words of the part at a too.
pub fn match_part(w: &[u32], ends: &[u32], m: Match, a: usize) -> Match
    requires { PartKnown w.now ends.now a }
    ensures { result ≡ matched w.now m (part w.now ends.now a) }
{
    let to = end_at(ends, a);
    match_range(w, m, a, to)
}

// Whether all stood there, up to the end of the part at `at`.
#[tactic(auto, unfolding(crate::specs::Matching::came))]
pub fn came_to_end(ends: &[u32], m: Match, at: usize) -> bool
    requires { «at» < length ends.now }
    ensures { result ≡ came m (end_at ends.now «at») }
{
    m == Ok(end_at(ends, at))
}

// Whether the words of the parts at f and g are the same. Two of one length differ more often at their end than at their
// start.
pub fn same_parts(w: &[u32], ends: &[u32], f: usize, g: usize) -> bool
    requires { PartKnown w.now ends.now f × PartKnown w.now ends.now g }
    ensures { result ≡ same_numbers (part w.now ends.now f) (part w.now ends.now g) }
{
    let e = end_at(ends, f);
    let to = end_at(ends, g);
    w[e - 1] == w[to - 1] && same_words(w, f, e - 1, g, to - 1)
}
