// The scan of what starts at a place, up to its end.
ghost use Rattle.scan.specs.Place.{StartsAt, ClosedAt};

use super::range::closed;

// Whether the expression at a place has no identifier (set rule 15).
pub fn closed_at(w: &[u32], ends: &[u32], at: usize) -> bool
    requires { StartsAt w.now ends.now «at» }
    ensures { ClosedAt w.now «at» result }
{
    closed(w, at, ends[at] as usize)
}
