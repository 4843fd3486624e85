// Members and sets.
ghost use Rattle.std.specs.Prelude.{◌≡◌};
ghost use Rattle.layout.specs.Bytes.{kind_at};
ghost use Rattle.layout.specs.Reading.{several};
ghost use Rattle.layout.specs.Read.{sort_of, consequent_at, member_at, set};
ghost use Rattle.context.specs.Contexts.{context_of};
ghost use Rattle.reader.specs.Walk.{walk_of, sort_meant};

use super::Sort;
use super::expression::read_operand;
use super::word::{kind_at, word_due};
use context::{Context, Refusal};
use words::kinds::SET;

// The sort that a kind is of; a kind of no expression counts as arithmetic, whose reader refuses it.
fn sort_of(kind: u32) -> Sort
    ensures { sort_meant result ≡ sort_of kind }
{
    match kind {
        8..=12 => Sort::Boolean,
        16..=18 => Sort::Array,
        _ => Sort::Arithmetic,
    }
}

// The sort of an expression by its first word.
fn sort_at(w: &[u32], at: usize) -> Sort
    ensures { sort_meant result ≡ sort_of (kind_at w.now at) }
{
    sort_of(kind_at(w, at))
}

// An expression of any sort.
fn read_consequent(w: &[u32], at: usize, left: usize) -> Result<usize, Refusal>
    ensures { result ≡ walk_of (consequent_at w.now left at) }
{
    read_operand(sort_at(w, at), w, Ok(at), left)
}

fn read_member(w: &[u32], at: usize, left: usize) -> Result<usize, Refusal>
    ensures { result ≡ walk_of (member_at w.now left at) }
{
    let consequent = read_operand(Sort::Boolean, w, Ok(at), left)?;
    read_consequent(w, consequent, left)
}

fn read_members(w: &[u32], count: u32, at: usize, left: usize) -> Result<usize, Refusal>
    ensures { result ≡ walk_of (several count (member_at w.now left) at) }
{
    let mut p = at;
    for _ in 0..count {
        p = read_member(w, p, left)?;
    }
    Ok(p)
}

pub fn read_set(w: &[u32], context: Context, at: usize, left: usize) -> Result<usize, Refusal>
    ensures { result ≡ walk_of (set (context_of context) w.now left at) }
{
    let first = word_due(w, at, left)?;
    let most = context.members;
    if first.kind == SET && first.payload as usize <= most {
        return read_members(w, first.payload, first.next, first.below);
    }
    Err(Refusal {
        number: 5,
        place: at,
    })
}
