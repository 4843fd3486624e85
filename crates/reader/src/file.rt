// A whole file: 63:n, a table of procedures if there are any, and the main program.
ghost use Rattle.std.specs.Prelude.{◌≡◌, ◌≤◌, length};
ghost use Rattle.rules.specs.Context.{alone};
ghost use Rattle.layout.specs.Bytes.{kind_at};
ghost use Rattle.layout.specs.File.{programs, parts};
ghost use Rattle.context.specs.Contexts.{limits_of};
ghost use Rattle.reader.specs.File.{Located, StartsRoom, Headed, end_of, read_of};

use super::Places;
use super::program::read_program;
use super::word::kind_at;
use context::{Context, Refusal};
use words::decode::payload;
use words::kinds::{FILE_WORD, PROCEDURES};

// Refusals 3 to 5: so many procedures and the main program, each from where the one before it ends. Their starts are put in
// `starts`.
fn read_programs(
    w: &[u32],
    starts: &mut [u32],
    context: Context,
    count: usize,
    at: usize,
) -> Result<Places, Refusal>
    requires { StartsRoom w.now starts.old count at }
    ensures { Located (programs (alone (limits_of context)) w.now count at) starts.old starts.new result }
{
    let mut p = at;
    for i in 0..count {
        starts[i] = p as u32;
        p = read_program(w, context, p)?.end;
    }
    starts[count] = p as u32;
    read_program(w, context, p)
}

// Refusals 3 to 5 of a file whose word 1 is 62:k, with k from 1 to 16.
fn read_procedures(w: &[u32], starts: &mut [u32], context: Context) -> Result<Places, Refusal>
    requires { StartsRoom w.now starts.old 16 2 × (kind_at w.now 1 ≡ 62) }
    ensures { Located (parts (limits_of context) w.now) starts.old starts.new result }
{
    let count = payload(w[1]) as usize;
    if 1 <= count && count <= 16 {
        return read_programs(w, starts, context, count, 2);
    }
    Err(Refusal {
        number: 5,
        place: 1,
    })
}

// Refusals 3 to 5: from place 1 on.
fn read_parts(w: &[u32], starts: &mut [u32], context: Context) -> Result<Places, Refusal>
    requires { StartsRoom w.now starts.old 16 1 }
    ensures { Located (parts (limits_of context) w.now) starts.old starts.new result }
{
    let kind = kind_at(w, 1);
    if kind == PROCEDURES {
        read_procedures(w, starts, context)
    } else {
        read_programs(w, starts, context, 0, 1)
    }
}

// Refusal 2: word 0 is 63:n.
fn has_head(w: &[u32]) -> bool
    ensures { Headed w.now result }
{
    !w.is_empty() && w[0] as usize == FILE_WORD + w.len()
}

// Refusal 6: words follow the evidence.
fn check_end(w: &[u32], places: Places) -> Result<Places, Refusal>
    ensures { result ≡ end_of w.now places }
{
    if places.end < w.len() {
        return Err(Refusal {
            number: 6,
            place: places.end,
        });
    }
    Ok(places)
}

// Refusals 2 to 6. Of a file that they let pass, the places where the procedures and then the main program start stand in
// front of `starts`.
pub fn read_words(w: &[u32], starts: &mut [u32], context: Context) -> Result<Places, Refusal>
    requires { 17 ≤ length starts.old }
    ensures { Located (read_of (limits_of context) w.now) starts.old starts.new result }
{
    if !has_head(w) {
        return Err(Refusal {
            number: 2,
            place: 0,
        });
    }
    let places = read_parts(w, starts, context)?;
    check_end(w, places)
}
