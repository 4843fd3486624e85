// Scans of the words from one place up to another.
ghost use Rattle.std.specs.Prelude.{◌≡◌, ◌-◌, ◌≤◌, length};
ghost use Rattle.ends.specs.Ends.{EndsOf};
ghost use Rattle.ends.specs.Blocks.{any_in};
ghost use Rattle.scan.specs.Scan.{marked, Modified, Unmarked, Closed};

use super::mask::is_marked;
use ends::blocks::marks_between;

// Whether one of the words is an identifier that the mask has.
fn any_marked(w: &[u32], from: usize, to: usize, mask: u64) -> bool
    requires { to ≤ length w.now }
    ensures { result ≡ any_in (marked mask) w.now (to - from) from }
{
    for at in from..to {
        if is_marked(mask, w[at]) {
            return true;
        }
    }
    false
}

// What the command in the range modifies, as a mask.
pub fn modified(w: &[u32], ends: &[u32], from: usize, to: usize) -> u64
    requires { EndsOf w.now ends.now × (to ≤ length w.now) }
    ensures { Modified w.now ends.now from to result }
{
    marks_between(w, ends, from, to)
}

// Whether a command whose mask is given modifies no identifier of the expression or set in the range.
pub fn unmarked(w: &[u32], from: usize, to: usize, mask: u64) -> bool
    requires { to ≤ length w.now }
    ensures { Unmarked w.now from to mask result }
{
    !any_marked(w, from, to, mask)
}

// Whether the expression in the range has no identifier. It stays beside `unmarked`: both ask `any_marked`, and their contracts
// state different things.
pub fn closed(w: &[u32], from: usize, to: usize) -> bool
    requires { to ≤ length w.now }
    ensures { Closed w.now from to result }
{
    !any_marked(w, from, to, u64::MAX)
}
