// The comparisons known so far, by number.
ghost use Rattle.std.specs.Prelude.{◌≡◌, ℕ, List, [], ◌∷◌, ◌++◌, ◌≤◌, length, take};
ghost use Rattle.implication.specs.Sides.{RangeFits};
ghost use Rattle.implication.specs.Scanning.{Compares, CanFind, Finds, Added};

use super::Failure;
use std::marker::Model;

// Whether the words from a up to b are those from p up to q. Not by `==` of the slices, with which `implies` took up to a
// third more instructions: that calls a comparison of memory for a few words.
fn same_range(w: &[u32], a: usize, b: usize, p: usize, q: usize) -> bool
    requires { RangeFits (length w.now) a b × RangeFits (length w.now) p q }
    ensures { Compares w.now a b p q result }
{
    b - a == q - p && w[a..b].iter().zip(&w[p..q]).all(|(x, y)| x == y)
}

// A comparison's number is its place here: where its words begin, and the place past them.
#[derive(Drop)]
pub struct Comparisons {
    spans: [(usize, usize); 16],
    count: usize,
}

// Clauses see the places of those that are known.
impl Model for Comparisons {
    ghost Value = { List (ℕ × ℕ) };

    ghost view = { λ c. take c.count c.spans };

    ghost invariant = { λ c. (c.count ≤ 16) × (length c.spans ≡ 16) };
}

impl Comparisons {
    pub fn new() -> Self
        ensures { result ≡ [] }
    {
        Comparisons {
            spans: [(0, 0); 16],
            count: 0,
        }
    }

    pub fn count(&self) -> usize
        ensures { result ≡ length self.now }
    {
        self.count
    }

    // The number of the first with the words from k up to next.
    pub fn find(&self, w: &[u32], k: usize, next: usize) -> Option<usize>
        requires { CanFind w.now k next self.now }
        ensures { Finds w.now k next self.now result }
    {
        for (number, &(start, end)) in self.spans[..self.count].iter().enumerate() {
            if same_range(w, start, end, k, next) {
                return Some(number);
            }
        }
        None
    }

    // The number of one more, from k up to next, unless as many as the limit are known.
    pub fn add(&mut self, k: usize, next: usize, limit: usize) -> Result<usize, Failure>
        requires { (length self.old ≤ limit) × (limit ≤ 16) }
        ensures { Added k next limit self.old self.new result }
    {
        let number = self.count;
        if number == limit {
            return Err(Failure::TooLarge);
        }
        self.spans[number] = (k, next);
        self.count += 1;
        Ok(number)
    }
}
