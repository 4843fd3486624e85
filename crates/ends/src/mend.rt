// The ends of some words of a file, written anew.
ghost use Rattle.ends.specs.Mend.{CanMend, Mended};

use super::{parts, past};

// The ends of all that starts in the words from `from` up to `to`, by those behind them. All others are kept.
pub fn mend_ends(w: &[u32], ends: &mut [u32], from: usize, to: usize)
    requires { CanMend w.now ends.old from to }
    ensures { Mended w.now ends.old ends.new from to }
{
    for i in (from..to).rev() {
        let end = past(ends, w.len(), i + 1, parts(w[i]));
        ends[i] = end as u32;
    }
}
