// How many levels what stands at a place takes, and where it ends.
ghost use Rattle.splice.specs.Extent.{ExtentOf};

use ends::parts;

#[derive(Clone, Copy)]
pub struct Extent {
    pub end: usize,
    pub levels: usize,
}

// Of an expression, a command or a set: one pass over its words. The levels left fall. The words need not be read yet: each turn takes one, so
// that the parts that a word claims cost nothing.
pub fn extent_at(w: &[u32], at: usize, most: usize) -> Extent
    ensures { ExtentOf w.now «at» most result }
{
    if most == 0 {
        return Extent { end: at, levels: 0 };
    }
    if w.len() <= at {
        return Extent { end: at, levels: 0 };
    }
    if most == 1 {
        return Extent {
            end: at + 1,
            levels: 1,
        };
    }
    let mut end = at + 1;
    let mut levels = 0;
    for _ in 0..parts(w[at]) {
        if w.len() <= end {
            return Extent {
                end,
                levels: levels + 1,
            };
        }
        let part = extent_at(w, end, most - 1);
        end = part.end;
        levels = levels.max(part.levels);
    }
    Extent {
        end,
        levels: levels + 1,
    }
}
