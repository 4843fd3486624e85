// Refusal 7 of the changed file, by what is known of the file (document 02, request [5]: 18 if the file so changed would not be read).
#![tactic(auto)]

pub mod old; // old.rt: what is kept of the old command
pub mod table; // table.rt: tables without masks of blocks

ghost use Rattle.std.specs.Prelude.{◌≡◌, true};
ghost use Rattle.splice.specs.SimpleWords.{read_to};
ghost use Rattle.changed_file.specs.Tables.{ReadMarked};
ghost use Rattle.changed_file.specs.Changed.{ChangedKnown};

use context::{Context, Refusal};
use old::Old;
use reader::Places;
use table::{assigns_any, mend, read_marked, stays};

// The new command is read wherever the old one was, up to the same place: the table is mended, and refusal 7 tested where the new command
// assigns what the old one does not and a `for` counts with, or where what a procedure modifies may change.
pub fn read_mended(
    w: &[u32],
    table: &mut [u32],
    context: Context,
    places: Places,
    place: usize,
    to: usize,
    old: Old,
) -> Result<Places, Refusal>
    requires { ChangedKnown context w.now places table.old place to old × (read_to w.now old.levels place to ≡ true) }
    ensures { ReadMarked w.now context result table.new }
{
    let fors = old.fors;
    let first = w[place];
    let same = first == old.first;
    let stay = stays(w, table, place, to, same);
    mend(w, table, context, places, place, to, stay);
    if !stay {
        return read_marked(w, table, context, places, fors);
    }
    if same {
        return Ok(places);
    }
    if assigns_any(first, fors.mask) {
        return read_marked(w, table, context, places, fors);
    }
    Ok(places)
}
