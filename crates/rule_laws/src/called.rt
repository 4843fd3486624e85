ghost use Rattle.std.specs.Prelude.{◌≡◌, ◌<◌, ◌≤◌, length};
ghost use Rattle.layout.specs.Bytes.{payload_at};
ghost use Rattle.ends.specs.Procedures.{start_at};

use ends::end_or_zero;
use goals::file::File;
use words::kinds::KIND;

// Where the procedure that the call at c names starts: its body, then its precondition and its postcondition.
pub fn start_of(file: &File, c: usize) -> usize
    requires { (length file.now.words.now ≤ 8192) × (c < length file.now.words.now) }
    ensures { result ≡ start_at file.now.words.now file.now.ends.now (payload_at file.now.words.now c) }
{
    let n = file.words.len();
    let number = (file.words[c] % KIND) as usize;
    end_or_zero(file.ends, n + 2 * (n / 32) + number)
}
