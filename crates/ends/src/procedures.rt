// The procedures of a file, in its list of ends (document 02, request [3]).
ghost use Rattle.std.specs.Prelude.{◌≡◌, ◌+◌, ◌<◌, length};
ghost use Rattle.ends.specs.Procedures.{table_at, start_at};

use super::end_at;

// Where the starts of the programs stand: behind the ends and the masks of blocks.
pub fn table_at(w: &[u32]) -> usize
    ensures { result ≡ table_at w.now }
{
    let n = w.len();
    n + 2 * (n / 32)
}

// Where the masks of the procedures stand: behind up to 17 starts.
pub fn masks_at(w: &[u32]) -> usize
    ensures { result ≡ table_at w.now + 17 }
{
    table_at(w) + 17
}

// Where program n starts: the procedures in order, and then the main program.
pub fn start_at(w: &[u32], ends: &[u32], n: usize) -> usize
    requires { table_at w.now + n < length ends.now }
    ensures { result ≡ start_at w.now ends.now n }
{
    end_at(ends, table_at(w) + n)
}
