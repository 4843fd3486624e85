// A skip, an assert or an assignment at a place.
ghost use Rattle.std.specs.Prelude.{◌≡◌, ◌/◌};
ghost use Rattle.layout.specs.Bytes.{payloads};
ghost use Rattle.ends.specs.Ends.{EndsListed};
ghost use Rattle.splice.specs.SimpleWords.{is_simple_kind, SimpleAt, read_to};

use ends::end_at;
use reader::command::read_command;
use words::kinds::{ASSERT, KIND, SKIP, TO_ARRAY, TO_SCALAR};

// Whether a word is the first of such a command.
#[tactic(auto, unfolding(crate::specs::SimpleWords::is_simple_kind))]
fn is_simple(x: u32) -> bool
    ensures { result ≡ is_simple_kind (x / payloads) }
{
    matches!(x / KIND, SKIP | ASSERT | TO_SCALAR | TO_ARRAY)
}

// Whether such a command stands from a place of a file that was read up to another.
pub fn is_simple_to(w: &[u32], ends: &[u32], at: usize, to: usize) -> bool
    requires { EndsListed w.now ends.now }
    ensures { SimpleAt w.now ends.now «at» to result }
{
    if w.len() <= at {
        return false;
    }
    if !is_simple(w[at]) {
        return false;
    }
    end_at(ends, at) == to
}

// Whether such a command is read from a place up to another, with so many levels.
pub fn is_read_to(w: &[u32], at: usize, to: usize, levels: usize) -> bool
    ensures { result ≡ read_to w.now levels «at» to }
{
    if w.len() <= at {
        return false;
    }
    if !is_simple(w[at]) {
        return false;
    }
    read_command(w, at, levels).is_ok_and(|p| p == to)
}
