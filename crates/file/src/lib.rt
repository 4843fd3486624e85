// A file from its bytes (document 01, "Judging order" 1 to 7; document 02, request [3]): its words and their table in lent room, and
// the places of its parts, or the refusal. Every call that takes a file begins here.
#![tactic(auto)]

ghost use Rattle.file.specs.Found.{Found, CallsRight, Called, TableRoom, TableMade, Tabled, CanLoad, FileRead};

use context::{Context, Refusal};
use ends::blocks::fill_blocks;
use ends::fill_ends;
use reader::Places;
use reader::file::read_words;
use scan::calls::first_wrong_call;
use scan::programs::fill_masks;
use scan::steady::first_unsteady;
use words::load::{bad_length, load};

// The table of a file: the ends of all that starts in its words, the masks of its procedures, and then those of its blocks, in which
// a call counts what its procedure modifies.
fn fill_table(w: &[u32], table: &mut [u32])
    requires { TableRoom w.now table.old }
    ensures { TableMade w.now table.old table.new }
{
    fill_ends(w, table);
    fill_masks(w, table);
    fill_blocks(w, table);
}

// Refusal 7, of words that refusals 2 to 6 and 16 let pass; their table is filled.
pub fn read_steady(
    w: &[u32],
    table: &mut [u32],
    context: Context,
    places: Places,
) -> Result<Places, Refusal>
    requires { CallsRight w.now context places table.old × TableRoom w.now table.old }
    ensures { Tabled w.now context result table.new }
{
    fill_table(w, table);
    match first_unsteady(w, table, 0, w.len(), true) {
        None => Ok(places),
        Some(place) => Err(Refusal { number: 7, place }),
    }
}

// Refusal 16, of words that refusals 2 to 6 let pass.
fn read_called(
    w: &[u32],
    table: &[u32],
    context: Context,
    places: Places,
) -> Result<Places, Refusal>
    requires { Found w.now context places table.now × TableRoom w.now table.now }
    ensures { Called w.now context result table.now }
{
    match first_wrong_call(w, table) {
        None => Ok(places),
        Some(place) => Err(Refusal { number: 16, place }),
    }
}

// Refusals 2 to 6 and 16. The starts of the programs stand behind the room for ends and masks of blocks.
pub fn read_calls(w: &[u32], table: &mut [u32], context: Context) -> Result<Places, Refusal>
    requires { TableRoom w.now table.old }
    ensures { Called w.now context result table.new }
{
    let n = w.len();
    let starts = n + 2 * (n / 32);
    let places = read_words(w, &mut table[starts..], context)?;
    read_called(w, table, context, places)
}

// Refusals 2 to 7 and 16.
pub fn read_table(w: &[u32], table: &mut [u32], context: Context) -> Result<Places, Refusal>
    requires { TableRoom w.now table.old }
    ensures { Tabled w.now context result table.new }
{
    let places = read_calls(w, table, context)?;
    read_steady(w, table, context, places)
}

// Refusals 1 to 7 and 16. Of a file that they let pass, the words stand in front of `words`, and `table` is filled for them.
pub fn read_file(
    file: &[u8],
    words: &mut [u32],
    table: &mut [u32],
    context: Context,
) -> Result<Places, Refusal>
    requires { CanLoad file.now words.old table.old }
    ensures { FileRead file.now context result words.new table.new }
{
    if bad_length(file) {
        return Err(Refusal {
            number: 1,
            place: 0,
        });
    }
    let n = load(file, words);
    read_table(&words[..n], table, context)
}
