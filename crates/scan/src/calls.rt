// Refusal 16 (document 02, request [3]): a call to a number not below its own procedure's, or not in the table.
ghost use Rattle.std.specs.Prelude.{◌≡◌, ◌<◌, length};
ghost use Rattle.layout.specs.Bytes.{word_count};
ghost use Rattle.layout.specs.Reading.{first_place};
ghost use Rattle.ends.specs.Blocks.{CanBlock};
ghost use Rattle.ends.specs.Procedures.{start_at};
ghost use Rattle.scan.specs.Programs.{procedure_count};
ghost use Rattle.scan.specs.Fault.{fault_place};
ghost use Rattle.scan.specs.Calls.{callable_from, wrong_at};

use super::pass::pass;
use super::programs::procedure_count;
use ends::procedures::start_at;
use words::kinds::{CALL, KIND};

// How many procedures end before a place: these may be called there.
fn callable(w: &[u32], table: &[u32], at: usize) -> usize
    requires { CanBlock w.now table.now }
    ensures { result ≡ callable_from (start_at w.now table.now) (procedure_count w.now) 0 «at» }
{
    let count = procedure_count(w);
    for i in 0..count {
        if at < start_at(w, table, i + 1) {
            return i;
        }
    }
    count
}

// Whether at a place stands such a call.
fn wrong_at(w: &[u32], table: &[u32], at: usize) -> bool
    requires { CanBlock w.now table.now × («at» < length w.now) }
    ensures { result ≡ wrong_at w.now table.now «at» }
{
    let word = w[at];
    if word / KIND != CALL {
        return false;
    }
    let number = (word % KIND) as usize;
    callable(w, table, at) <= number
}

// The place of the first such call, of the programs or of the evidence, if there is one. Most files have no call.
pub fn first_wrong_call(w: &[u32], table: &[u32]) -> Option<usize>
    requires { CanBlock w.now table.now }
    ensures { result ≡ fault_place (first_place (wrong_at w.now table.now) (word_count w.now) 0) }
{
    // stays a `while`: no range has the places at which `pass` stops
    let mut at = pass(w, 0, CALL);
    while at < w.len() {
        if wrong_at(w, table, at) {
            return Some(at);
        }
        at = pass(w, at + 1, CALL);
    }
    None
}
