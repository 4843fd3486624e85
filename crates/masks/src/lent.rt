// Refusal 17 (document 02, request [5]): fewer numbers are lent than the file has words.
ghost use Rattle.std.specs.Prelude.{◌≡◌};
ghost use Rattle.masks.specs.WithMasks.{few_numbers};

use words::kinds::FILE_WORD;
use words::load::{bad_length, word_at};

// Whether 1 and 2 let a file pass that has more words than numbers are lent.
pub fn few_numbers(file: &[u8], lent: usize) -> bool
    ensures { result ≡ few_numbers file.now lent }
{
    if bad_length(file) {
        return false;
    }
    let words = file.len() / 4;
    let due = FILE_WORD + words;
    if word_at(file, 0) as usize != due {
        return false;
    }
    lent < words
}
