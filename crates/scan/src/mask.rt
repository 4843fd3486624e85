// Identifiers of a mask among words.
ghost use Rattle.std.specs.Prelude.{◌≡◌, ◌/◌, ◌%◌};
ghost use Rattle.layout.specs.Bytes.{payloads};
ghost use Rattle.scan.specs.Scan.{marked};

use ends::mask::has_bit;
use words::kinds::{ARRAY, KIND, SCALAR};

// Whether a word is an identifier that the mask has: kinds 2 and 16.
#[tactic(auto, unfolding(crate::specs::Scan::mentioned))]
pub fn is_marked(mask: u64, x: u32) -> bool
    ensures { result ≡ marked mask (x / payloads) (x % payloads) }
{
    let kind = x / KIND;
    let number = x % KIND % 32;
    match kind {
        SCALAR => has_bit(mask, number),
        ARRAY => has_bit(mask, 32 + number),
        _ => false,
    }
}
