// Tables without masks of blocks: in the workbench call only refusal 7 of a file with long bodies of `for`s needs the masks of blocks.
ghost use Rattle.std.specs.Prelude.{◌/◌, ◌%◌};
ghost use Rattle.layout.specs.Bytes.{payloads};
ghost use Rattle.ends.specs.Blocks.{CanBlock};
ghost use Rattle.scan.specs.ForsMask.{ForsFound};
ghost use Rattle.scan.specs.Steady.{CanScanFors};
ghost use Rattle.file.specs.Found.{CallsRight, TableRoom};
ghost use Rattle.changed_file.specs.Tables.{Marked, StartsKept, Steadied, MayChange, Stays, CanMendTable, TableMended, AssignsAny};

use context::{Context, Refusal};
use ends::blocks::fill_blocks;
use ends::mask::has_bit;
use ends::mend::mend_ends;
use ends::procedures::start_at;
use ends::{end_or_zero, fill_ends};
use reader::Places;
use scan::for_mask::Fors;
use scan::programs::{fill_masks, procedure_count};
use scan::steady::first_unsteady;
use words::kinds::{ASSERT, KIND, SKIP, TO_ARRAY, TO_SCALAR};

// The ends of words that refusals 2 to 6 and 16 let pass, and the masks of their procedures.
pub fn fill_marked(w: &[u32], table: &mut [u32], context: Context, places: Places)
    requires { CallsRight w.now context places table.old × TableRoom w.now table.old }
    ensures { Marked w.now context places table.new × StartsKept w.now table.old table.new }
{
    fill_ends(w, table);
    fill_masks(w, table);
}

// Refusal 7, by the scan. `blocked`: masks of blocks are filled; else the words of each body are scanned.
fn read_scanned(
    w: &[u32],
    table: &[u32],
    context: Context,
    places: Places,
    fors: Fors,
    blocked: bool,
) -> Result<Places, Refusal>
    requires marked { Marked w.now context places table.now }
    requires can_scan { CanScanFors w.now table.now fors.first fors.past blocked }
    ensures { Steadied w.now context places result table.now table.now }
{
    match first_unsteady(w, table, fors.first, fors.past, blocked) {
        None => Ok(places),
        Some(place) => Err(Refusal { number: 7, place }),
    }
}

// Refusal 7, by what is known of all `for`s. Masks of blocks are filled only if the bodies have more than half as many words as the file.
pub fn read_marked(
    w: &[u32],
    table: &mut [u32],
    context: Context,
    places: Places,
    fors: Fors,
) -> Result<Places, Refusal>
    requires { Marked w.now context places table.old × ForsFound w.now fors }
    ensures { Steadied w.now context places result table.old table.new }
{
    if fors.mask == 0 {
        return Ok(places);
    }
    if fors.words <= w.len() / 2 {
        return read_scanned(w, table, context, places, fors, false);
    }
    fill_blocks(w, table);
    read_scanned(w, table, context, places, fors, true)
}

// Whether what a procedure's command modifies may change where words from a place up to another do. `same`: these assign the same.
fn may_change(start: usize, past: usize, from: usize, to: usize, same: bool) -> bool
    ensures { MayChange start past from to same result }
{
    if to <= start {
        return false;
    }
    if from < start {
        return true;
    }
    if same {
        return false;
    }
    from < past
}

// Whether the masks of the procedures stay where words from a place up to another change. `same`: these assign the same.
pub fn stays(w: &[u32], table: &[u32], from: usize, to: usize, same: bool) -> bool
    requires { CanBlock w.now table.now }
    ensures { Stays w.now table.now from to same result }
{
    for i in 0..procedure_count(w) {
        let start = start_at(w, table, i);
        let past = end_or_zero(table, start);
        if may_change(start, past, from, to, same) {
            return false;
        }
    }
    true
}

// Other words stand from a place up to another: their ends, and the masks of the procedures, unless these stay.
pub fn mend(
    w: &[u32],
    table: &mut [u32],
    context: Context,
    places: Places,
    from: usize,
    to: usize,
    stay: bool,
)
    requires { CanMendTable w.now context places table.old from to stay }
    ensures { TableMended w.now context places table.old table.new stay }
{
    mend_ends(w, table, from, to);
    if !stay {
        fill_masks(w, table);
    }
}

// Whether a word assigns an identifier of a mask, or is of another kind than those of the commands that are put.
pub fn assigns_any(x: u32, mask: u64) -> bool
    ensures { AssignsAny mask (x / payloads) (x % payloads) result }
{
    let kind = x / KIND;
    let number = x % KIND % 32;
    match kind {
        SKIP => false,
        ASSERT => false,
        TO_SCALAR => has_bit(mask, number),
        TO_ARRAY => has_bit(mask, 32 + number),
        _ => true,
    }
}
