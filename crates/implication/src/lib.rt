// "Implies" of document 01: whether every assignment to the distinct comparisons of two written booleans that makes the
// one true makes the other true.
#![tactic(auto)]

mod comparisons;
mod compile;
mod scan;

ghost use Rattle.std.specs.Prelude.{◌≡◌, ◌+◌, ◌*◌, ◌^◌, ◌≤◌, length};
ghost use Rattle.implication.specs.Sides.{SideFits, side_room, CanImply, Implied};

use comparisons::Comparisons;
use compile::compile_side;
use truth_table::{NOT, OR};

// Why a condition does not pass (document 01, "Judging order", 8 and 9).
#[derive(Clone, Copy, Debug, PartialEq, Eq)]
pub enum Failure {
    Fails,
    TooLarge,
}

// What is compared. Each pair is the place of a written boolean and the place past it.
#[derive(Clone, Copy)]
pub enum Side {
    One(usize, usize),
    // The first and the second.
    Both(usize, usize, usize, usize),
    // The first and not the second.
    BothNot(usize, usize, usize, usize),
    False,
}

// Blocks of 64 assignments, enough for n comparisons.
fn blocks(n: usize) -> usize
    requires { n ≤ 16 }
    ensures { (2 ^ n ≤ 64 * result) × (result ≤ 1024) }
{
    (1usize << n).div_ceil(64)
}

// As many bytes as the formula of a side may take.
fn room(s: Side) -> usize
    requires { SideFits 8192 s }
    ensures { (result ≡ side_room s) × (result ≤ 16386) }
{
    match s {
        Side::One(a, p) => p - a,
        Side::Both(a, p, b, q) => 1 + (p - a) + (q - b),
        Side::BothNot(a, p, b, q) => 2 + (p - a) + (q - b),
        Side::False => 1,
    }
}

// Whether the one side implies the other, with bytes lent for the formula: not the left, or the right.
fn decide_sides(
    w: &[u32],
    left: Side,
    right: Side,
    limit: usize,
    prog: &mut [u8],
) -> Result<(), Failure>
    requires { CanImply w.now left right limit × (2 + side_room left + side_room right ≤ length prog.old) }
    ensures { Implied w.now left right limit result }
{
    let mut known = Comparisons::new();
    prog[0] = OR;
    prog[1] = NOT;
    let middle = compile_side(w, left, limit, &mut known, prog, 2)?;
    let len = compile_side(w, right, limit, &mut known, prog, middle)?;
    if truth_table::every(prog, len, blocks(known.count())) {
        Ok(())
    } else {
        Err(Failure::Fails)
    }
}

// Whether the one side implies the other, over at most limit distinct comparisons (rules 14, 18, 21 and 28).
pub fn implies(w: &[u32], left: Side, right: Side, limit: usize) -> Result<(), Failure>
    requires { CanImply w.now left right limit }
    ensures { Implied w.now left right limit result }
{
    let most = 2 + room(left) + room(right);
    // Most formulas are short, and few bytes are to be cleared for them.
    if most <= 256 {
        let mut prog = [0u8; 256];
        return decide_sides(w, left, right, limit, &mut prog);
    }
    let mut prog = [0u8; 32776];
    decide_sides(w, left, right, limit, &mut prog)
}
