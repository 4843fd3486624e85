// Where the bodies of procedures stand.
ghost use Rattle.std.specs.Prelude.{◌≡◌, get_or};
ghost use Rattle.heads.specs.Stands.{start_place};

use ends::end_or_zero;
use words::kinds::KIND;

// The place of the body of procedure p. Word 0 has the count n of words; behind their n ends and the masks of their blocks stand the
// starts of the programs.
pub fn called_at(w: &[u32; 8192], ends: &[u32; 8753], p: u32) -> usize
    ensures { result ≡ get_or ends.now (start_place w.now p) 0 }
{
    let n = (w[0] % KIND) as usize;
    end_or_zero(ends, n + 2 * (n / 32) + p as usize)
}
