// Words from bytes.
ghost use Rattle.std.specs.Prelude.{◌≡◌, ◌+◌, ◌*◌, ◌<◌, length};
ghost use Rattle.layout.specs.File.{bad_length};
ghost use Rattle.words.specs.Load.{word_at, Loaded};

// Refusal 1 (document 01, "Judging order"): the byte count is 0, over 32,768 or no multiple of 4.
pub fn bad_length(file: &[u8]) -> bool
    ensures { result ≡ bad_length file.now }
{
    let n = file.len();
    n == 0 || 32768 < n || n % 4 != 0
}

// Four bytes, the low one first.
pub fn word_at(file: &[u8], place: usize) -> u32
    requires { 4 * place + 3 < length file.now }
    ensures { result ≡ word_at file.now place }
{
    let i = 4 * place;
    u32::from_le_bytes([file[i], file[i + 1], file[i + 2], file[i + 3]])
}

// Puts the words of a file in front, as many as there is room for, and answers how many.
pub fn load(file: &[u8], words: &mut [u32]) -> usize
    ensures { Loaded file.now words.old words.new result }
{
    let n = (file.len() / 4).min(words.len());
    for i in 0..n {
        words[i] = word_at(file, i);
    }
    n
}
