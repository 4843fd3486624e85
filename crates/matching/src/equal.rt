ghost use Rattle.std.specs.Prelude.{◌≡◌, ◌≤◌, ◌+◌, ◌/◌, eqb, length, drop};
ghost use Rattle.std.specs.Cmp.Lexicographic.{pointwise};
ghost use Rattle.std.specs.List.{prefix_len, common_prefix_len, zip};
ghost use Rattle.std.specs.Simd.{first_chunks};
ghost use Rattle.matching.specs.Matching.{between, same_numbers};

// Whether the words from a up to b are those from c up to d. Often there are none, since the parts have one word.
pub fn same_words(w: &[u32], a: usize, b: usize, c: usize, d: usize) -> bool
    requires { (a ≤ b) × (b ≤ length w.now) × (c ≤ d) × (d ≤ length w.now) }
    ensures { result ≡ same_numbers (between w.now a b) (between w.now c d) }
{
    b - a == d - c && (a == b || common_prefix(&w[a..b], &w[c..d]) == b - a)
}

// How many whole blocks of four words are the same in both, from the start on. Blocks are arrays, so that `==` compares their words without
// a branch for each.
fn common_blocks(a: &[u32], b: &[u32]) -> usize
    ensures { result ≡ prefix_len (λ p. pointwise eqb p.0 p.1) (zip (first_chunks 4 (length a.now / 4) a.now) (first_chunks 4 (length b.now / 4) b.now)) }
{
    let (x, _) = a.as_chunks::<4>();
    let (y, _) = b.as_chunks::<4>();
    x.iter().zip(y).take_while(|(s, t)| **s == **t).count()
}

// The first place from k on at which the words of both differ, or their end.
fn first_difference(a: &[u32], b: &[u32], k: usize) -> usize
    requires { (length a.now ≡ length b.now) × (k ≤ length a.now) }
    ensures { result ≡ k + common_prefix_len eqb (drop k a.now) (drop k b.now) }
{
    for i in k..a.len() {
        if a[i] != b[i] {
            return i;
        }
    }
    a.len()
}

// How many words are the same in both, from the start on. Both are cut to one length, so that one test a turn is enough.
pub fn common_prefix(a: &[u32], b: &[u32]) -> usize
    ensures { result ≡ common_prefix_len eqb a.now b.now }
{
    let count = a.len().min(b.len());
    let (a, b) = (&a[..count], &b[..count]);
    first_difference(a, b, 4 * common_blocks(a, b))
}
