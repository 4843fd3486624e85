ghost use Rattle.std.specs.Prelude.{◌≡◌, ◌<◌, ◌≤◌, Ok, length};
ghost use Rattle.matching.specs.Matching.{matched_word, matched, between, put_for};

use crate::equal::common_prefix;

// A word, and the places between which the words stand that are put for it.
#[derive(Clone, Copy, Debug, PartialEq, Eq)]
pub struct Put {
    pub word: u32,
    pub from: usize,
    pub to: usize,
}

// The place past all that was asked for so far; or, where one word did not stand there, the place where it was missing, whatever is asked
// for from there on.
pub type Match = Result<usize, usize>;

// Past the word x too.
pub fn match_word(w: &[u32], m: Match, x: u32) -> Match
    ensures { result ≡ matched_word w.now m x }
{
    let at = m?;
    if w.len() <= at {
        return Err(at);
    }
    if w[at] == x { Ok(at + 1) } else { Err(at) }
}

// Past some words too.
pub fn match_words(w: &[u32], m: Match, words: &[u32]) -> Match
    ensures { result ≡ matched w.now m words.now }
{
    let mut at = m?;
    for x in words {
        at = match_word(w, Ok(at), *x)?;
    }
    Ok(at)
}

// Past the words from `from` up to `to` too.
pub fn match_range(w: &[u32], m: Match, from: usize, to: usize) -> Match
    requires { to ≤ length w.now }
    ensures { result ≡ matched w.now m (between w.now from to) }
{
    let at = m?;
    if to <= from {
        return Ok(at);
    }
    if w.len() <= at {
        return Err(at);
    }
    let same = common_prefix(&w[at..], &w[from..to]);
    if same < to - from {
        Err(at + same)
    } else {
        Ok(at + same)
    }
}

// Past the word x, or past what is put for it, too.
pub fn match_head(w: &[u32], m: Match, x: u32, put: Put) -> Match
    requires { put.to ≤ length w.now }
    ensures { result ≡ matched w.now m (put_for w.now put x) }
{
    if x == put.word {
        match_range(w, m, put.from, put.to)
    } else {
        match_word(w, m, x)
    }
}
