// Identifiers as the bits of a number: bit x is scalar x, bit 32 + a is array a. What a word assigns, as such a number.
ghost use Rattle.std.specs.Prelude.{◌≡◌, ◌+◌, ◌/◌, ◌%◌, ◌^◌, ◌<◌, ◌≤◌, length, set};
ghost use Rattle.std.specs.Int.Bits.{bit_or};
ghost use Rattle.layout.specs.Bytes.{payloads};
ghost use Rattle.ends.specs.Mask.{bit};
ghost use Rattle.ends.specs.Blocks.{block_at, procedure_mask, written, with_mark};

use words::kinds::{CALL, FOR, KIND, TO_ARRAY, TO_SCALAR};

// Whether the mask has bit i.
#[tactic(auto, unfolding(crate::specs::Mask::bit))]
pub fn has_bit(mask: u64, i: u32) -> bool
    requires { i < 64 }
    ensures { result ≡ bit mask i }
{
    (mask >> i) % 2 == 1
}

// The mask with bit i.
pub fn with_bit(mask: u64, i: u32) -> u64
    requires { i < 64 }
    ensures { result ≡ bit_or mask (2 ^ i) }
{
    mask | (1u64 << i)
}

// A mask stands in a list in two halves: scalars, then arrays.
const HALF: u64 = 1 << 32;

// A mask that stands in a list.
pub fn mask_at(ends: &[u32], at: usize) -> u64
    requires { «at» + 1 < length ends.now }
    ensures { result ≡ block_at ends.now «at» }
{
    u64::from(ends[at]) + HALF * u64::from(ends[at + 1])
}

// Puts a mask in a list.
pub fn put_mask(ends: &mut [u32], at: usize, mask: u64)
    requires { «at» + 1 < length ends.old }
    ensures { ends.new
        ≡ set (set ends.old «at» (mask % 4294967296)) («at» + 1) (mask / 4294967296) }
{
    ends[at] = (mask % HALF) as u32;
    ends[at + 1] = (mask / HALF) as u32;
}

// The mask of procedure p, of those that stand from a place on: none for a number that no procedure has.
#[tactic(auto, unfolding(crate::specs::Blocks::procedure_mask))]
fn procedure_mask(ends: &[u32], from: usize, p: u32) -> u64
    requires { from + 32 ≤ length ends.now }
    ensures { result ≡ procedure_mask ends.now from p }
{
    if p < 16 {
        mask_at(ends, from + 2 * (p as usize))
    } else {
        0
    }
}

// The mask with what a word assigns: kinds 27, 28 and 31, and 38, a call. The masks of procedures stand from a place on.
pub fn mark(ends: &[u32], from: usize, mask: u64, x: u32) -> u64
    requires { from + 32 ≤ length ends.now }
    ensures { result ≡ with_mark mask (written (procedure_mask ends.now from) (x / payloads) (x % payloads)) }
{
    let kind = x / KIND;
    // most words assign nothing, and most others a scalar
    if kind < TO_SCALAR {
        return mask;
    }
    if kind == TO_SCALAR {
        return with_bit(mask, x % KIND % 32);
    }
    if FOR < kind {
        if kind == CALL {
            return mask | procedure_mask(ends, from, x % KIND);
        }
        return mask;
    }
    let number = x % KIND % 32;
    match kind {
        TO_ARRAY => with_bit(mask, 32 + number),
        FOR => with_bit(mask, number),
        _ => mask,
    }
}
