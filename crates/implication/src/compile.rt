// Booleans compiled to the bytes of formulas.
ghost use Rattle.std.specs.Prelude.{◌+◌, ◌-◌, ◌<◌, length};
ghost use Rattle.implication.specs.Sides.{RangeFits, SideFits, side_room};
ghost use Rattle.implication.specs.Compiling.{FormulaWritten, SideWritten, CanCompile, Compiles};

use super::comparisons::Comparisons;
use super::scan::{Role, role_of, skip};
use super::{Failure, Side};
use truth_table::{AND, FALSE, NOT};

// The boolean of the words from a up to end as bytes after the first len; how many bytes there are then.
fn compile(
    w: &[u32],
    a: usize,
    end: usize,
    limit: usize,
    known: &mut Comparisons,
    prog: &mut [u8],
    len: usize,
) -> Result<usize, Failure>
    requires { RangeFits (length w.now) a end × CanCompile w.now limit len (end - a) known.old prog.old }
    ensures { Compiles w.now (FormulaWritten w.now a end) limit len (end - a)
        known.old prog.old known.new prog.new result }
{
    let mut at = len;
    let mut k = a;
    // stays a `while`: k goes past all the words of a comparison at once, which no iterator over them does more plainly
    while k < end {
        let next = match role_of(w[k]) {
            Role::Byte(op) => {
                prog[at] = op;
                k + 1
            }
            Role::Comparison | Role::Inside => {
                let next = skip(w, k + 1, end);
                let number = match known.find(w, k, next) {
                    Some(number) => number,
                    None => known.add(k, next, limit)?,
                };
                prog[at] = number as u8;
                next
            }
        };
        at += 1;
        k = next;
    }
    Ok(at)
}

// The boolean that a side is.
pub fn compile_side(
    w: &[u32],
    s: Side,
    limit: usize,
    known: &mut Comparisons,
    prog: &mut [u8],
    len: usize,
) -> Result<usize, Failure>
    requires { SideFits (length w.now) s × CanCompile w.now limit len (side_room s) known.old prog.old }
    ensures { Compiles w.now (SideWritten w.now s) limit len (side_room s)
        known.old prog.old known.new prog.new result }
{
    match s {
        Side::One(a, p) => compile(w, a, p, limit, known, prog, len),
        Side::Both(a, p, b, q) => {
            prog[len] = AND;
            let at = compile(w, a, p, limit, known, prog, len + 1)?;
            compile(w, b, q, limit, known, prog, at)
        }
        Side::BothNot(a, p, b, q) => {
            prog[len] = AND;
            let at = compile(w, a, p, limit, known, prog, len + 1)?;
            prog[at] = NOT;
            compile(w, b, q, limit, known, prog, at + 1)
        }
        Side::False => {
            prog[len] = FALSE;
            Ok(len + 1)
        }
    }
}
