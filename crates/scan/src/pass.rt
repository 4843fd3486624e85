// A scan that passes words until it comes to some of a kind.
ghost use Rattle.std.specs.Prelude.{◌≡◌, false, ◌+◌, ◌≤◌, length};
ghost use Rattle.scan.specs.Pass.{Passed};

use words::kinds::KIND;

// Whether one of the eight words from a place on has the kind. The loop does not stop at the first, so that all can be tested at once.
fn kind_in_eight(w: &[u32], at: usize, kind: u32) -> bool
    requires { «at» + 8 ≤ length w.now }
    ensures { result ≡ false → Passed w.now kind «at» («at» + 8) }
{
    let mut found = false;
    for i in at..at + 8 {
        found |= w[i] / KIND == kind;
    }
    found
}

// A place from the given one on, before which no word has the kind: where eight words with such a one begin, or where fewer than eight are
// left.
pub fn pass(w: &[u32], from: usize, kind: u32) -> usize
    ensures { Passed w.now kind from result }
{
    if w.len() < 8 {
        return from;
    }
    let last = w.len() - 7;
    // stays a `while`: where it stops is the answer, also between the places of a range by eights
    let mut at = from;
    while at < last {
        if kind_in_eight(w, at, kind) {
            return at;
        }
        at += 8;
    }
    at
}
