// The old command, of which something is kept when the new one stands in its place.
ghost use Rattle.std.specs.Prelude.{◌≡◌, true, ◌<◌, length};
ghost use Rattle.splice.specs.SimpleWords.{read_to};
ghost use Rattle.changed_file.specs.Changed.{LevelsFor, OldAt};

use scan::for_mask::Fors;
use splice::extent::extent_at;
use splice::simple::is_read_to;

// Of the file: the first word of the old command, with how many levels the new one has to be read and whether it is known to be, and what is
// known of all `for`s. `known` stays a flag: the new command has to be read with `levels` in both cases, so an Option would lose their number.
#[derive(Clone, Copy)]
pub struct Old {
    pub first: u32,
    pub levels: usize,
    pub known: bool,
    pub fors: Fors,
}

// With how many levels the new command has to be read: as many as the old one takes, or all where the changed words are known to pass.
fn levels_for(w: &[u32], place: usize, depth: usize, both: bool) -> usize
    ensures { LevelsFor w.now place depth both result }
{
    if both {
        return depth;
    }
    let extent = extent_at(w, place, depth);
    extent.levels
}

// What is kept of the old command.
pub fn old_at(w: &[u32], place: usize, depth: usize, both: bool, fors: Fors) -> Old
    requires { place < length w.now }
    ensures { OldAt w.now place depth both fors result }
{
    let levels = levels_for(w, place, depth, both);
    Old {
        first: w[place],
        levels,
        known: both,
        fors,
    }
}

// Whether the new command is read with the levels that are asked.
pub fn is_known(w: &[u32], place: usize, to: usize, old: Old) -> bool
    requires { old.known ≡ true → read_to w.now old.levels place to ≡ true }
    ensures { result ≡ read_to w.now old.levels place to }
{
    if old.known {
        return true;
    }
    is_read_to(w, place, to, old.levels)
}
