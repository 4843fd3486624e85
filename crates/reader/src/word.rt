// The word at a place, and the word that is due there.
ghost use Rattle.std.specs.Prelude.{◌≡◌};
ghost use Rattle.layout.specs.Bytes.{kind_at};
ghost use Rattle.reader.specs.Walk.{due_of};

use super::FirstWord;
use context::Refusal;

// 0 past the end.
pub fn kind_at(w: &[u32], at: usize) -> u32
    ensures { result ≡ kind_at w.now at }
{
    w.get(at).map_or(0, |word| words::decode::kind(*word))
}

// Refusal 3, the file ends, comes before refusal 4, no level is left.
pub fn word_due(w: &[u32], at: usize, left: usize) -> Result<FirstWord, Refusal>
    ensures { result ≡ due_of w.now left at }
{
    let n = w.len();
    if n <= at {
        return Err(Refusal {
            number: 3,
            place: n,
        });
    }
    if left == 0 {
        return Err(Refusal {
            number: 4,
            place: at,
        });
    }
    let word = w[at];
    Ok(FirstWord {
        kind: words::decode::kind(word),
        payload: words::decode::payload(word),
        next: at + 1,
        below: left - 1,
    })
}
