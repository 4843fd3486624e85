// The workbench call (document 02, requests [5] and [6]): another skip, assert or assignment of equal length in the place of one, and the masks of
// the changed file. Words and table stay two parameters: most calls take a part of the words to read and the whole table to write, so a struct of
// both would be taken apart at each.
#![tactic(auto)]

ghost use Rattle.std.specs.Prelude.{◌≡◌, false, ◌+◌, ◌*◌, ◌/◌, ◌<◌, ◌≤◌, length};
ghost use Rattle.layout.specs.File.{bad_length};
ghost use Rattle.context.specs.Settings.{limits_given};
ghost use Rattle.context.specs.Contexts.{limits_of, Settable};
ghost use Rattle.changed_file.specs.Changed.{ChangedKnown};
ghost use Rattle.replacement.specs.Put.{PutDone};
ghost use Rattle.replacement.specs.Steps.{CanRead, CanReplace, CanChange, CanSettle, CanFinish};
ghost use Rattle.file.specs.Found.{CanLoad};

use changed_file::old::{Old, is_known, old_at};
use changed_file::read_mended;
use changed_file::table::{fill_marked, read_marked};
use context::settings::{Settings, are_within_ranges, context_under};
use context::{Context, Refusal};
use file::read_table;
use masks::fill;
use masks::lent::few_numbers;
use reader::Places;
use replacement::refused;
use scan::for_mask::{Fors, find_fors};
use splice::copy::copy;
use splice::simple::{is_read_to, is_simple_to};
use splice::walk::{NewCommand, Walked, walk_first};
use words::load::{bad_length, load};

// The changed file was read: masks and file are changed.
fn finish(
    w: &[u32],
    table: &[u32],
    context: Context,
    file: &mut [u8],
    masks: &mut [u64],
    new: &NewCommand,
) -> Result<(), Refusal>
    requires { CanFinish (limits_of context) file.old (length masks.old) new.now.place new.now.bytes.now w.now table.now }
    ensures { PutDone (limits_of context) file.old masks.old new.now.place new.now.bytes.now result file.new masks.new }
{
    fill(w, table, masks);
    copy(new.bytes, file, 4 * new.place);
    Ok(())
}

// The new command is one, whole: so has to be the changed file.
fn settle(
    w: &[u32],
    table: &[u32],
    context: Context,
    layout: Result<Places, Refusal>,
    file: &mut [u8],
    masks: &mut [u64],
    new: &NewCommand,
) -> Result<(), Refusal>
    requires { CanSettle context file.old (length masks.old) new.now.place new.now.bytes.now w.now table.now layout }
    ensures { PutDone (limits_of context) file.old masks.old new.now.place new.now.bytes.now result file.new masks.new }
{
    match layout {
        Ok(_) => finish(w, table, context, file, masks, new),
        Err(_) => refused(18),
    }
}

// The words are those of the changed file: the new command has to be one, whole. Where it takes no more levels than the old one, or the
// changed words are known to pass, refusals 2 to 6 and 16 let these pass; else they are read as any file's.
fn change(
    w: &[u32],
    table: &mut [u32],
    context: Context,
    places: Places,
    old: Old,
    file: &mut [u8],
    masks: &mut [u64],
    new: &NewCommand,
) -> Result<(), Refusal>
    requires { CanChange (limits_of context) file.old (length masks.old) new.now.place new.now.bytes.now w.now table.old
        × ChangedKnown context w.now places table.old new.now.place (new.now.place + length new.now.bytes.now / 4) old }
    ensures { PutDone (limits_of context) file.old masks.old new.now.place new.now.bytes.now result file.new masks.new }
{
    let to = new.place + new.bytes.len() / 4;
    if is_known(w, new.place, to, old) {
        let layout = read_mended(w, table, context, places, new.place, to, old);
        return settle(w, table, context, layout, file, masks, new);
    }
    if !is_read_to(w, new.place, to, context.depth) {
        return refused(18);
    }
    let layout = read_table(w, table, context);
    settle(w, table, context, layout, file, masks, new)
}

// The file was read: the old command has to be one, as long as the new bytes.
fn replace(
    words: &mut [u32],
    table: &mut [u32],
    context: Context,
    walked: Walked,
    fors: Fors,
    file: &mut [u8],
    masks: &mut [u64],
    new: &NewCommand,
) -> Result<(), Refusal>
    requires { CanReplace context file.old (length masks.old) new.now.place new.now.bytes.now words.old table.old walked.places walked.both fors }
    ensures { PutDone (limits_of context) file.old masks.old new.now.place new.now.bytes.now result file.new masks.new }
{
    let n = file.len() / 4;
    if n <= new.place {
        return refused(18);
    }
    if new.bytes.len() % 4 != 0 {
        return refused(18);
    }
    let to = new.place + new.bytes.len() / 4;
    if !is_simple_to(&words[..n], table, new.place, to) {
        return refused(18);
    }
    let old = old_at(&words[..n], new.place, context.depth, walked.both, fors);
    load(new.bytes, &mut words[new.place..]);
    change(
        &words[..n],
        table,
        context,
        walked.places,
        old,
        file,
        masks,
        new,
    )
}

// Refusals 2 to 6 and 16 let the file's words pass: 7, and then 18.
fn put_called(
    words: &mut [u32],
    table: &mut [u32],
    context: Context,
    walked: Walked,
    file: &mut [u8],
    masks: &mut [u64],
    new: &NewCommand,
) -> Result<(), Refusal>
    requires { CanRead context file.old (length masks.old) new.now.place new.now.bytes.now words.old table.old walked.places walked.both }
    ensures { PutDone (limits_of context) file.old masks.old new.now.place new.now.bytes.now result file.new masks.new }
{
    let n = file.len() / 4;
    fill_marked(&words[..n], table, context, walked.places);
    let fors = find_fors(&words[..n], table);
    read_marked(&words[..n], table, context, walked.places, fors)?;
    replace(words, table, context, walked, fors, file, masks, new)
}

// Refusals 1, 2, 17, 3 to 7 and 16, and then 18, with room for the file's words and their table.
fn put_in(
    words: &mut [u32],
    table: &mut [u32],
    context: Context,
    file: &mut [u8],
    masks: &mut [u64],
    new: &NewCommand,
) -> Result<(), Refusal>
    requires { CanLoad file.old words.old table.old × Settable context }
    ensures { PutDone (limits_of context) file.old masks.old new.now.place new.now.bytes.now result file.new masks.new }
{
    if few_numbers(file, masks.len()) {
        return refused(17);
    }
    if bad_length(file) {
        return refused(1);
    }
    load(file, words);
    let walked = walk_first(words, table, context, file, new)?;
    put_called(words, table, context, walked, file, masks, new)
}

// The same in room for so many words and for so many numbers of their table, at most those for 8,192 words.
fn put_sized<const WORDS: usize, const TABLE: usize>(
    context: Context,
    file: &mut [u8],
    masks: &mut [u64],
    new: &NewCommand,
) -> Result<(), Refusal>
    requires fits { bad_length file.old ≡ false → length file.old ≤ 4 * WORDS }
    requires wide { WORDS + 2 * (WORDS / 32) + 49 ≤ TABLE }
    requires small { TABLE ≤ 8753 }
    requires settable { Settable context }
    ensures { PutDone (limits_of context) file.old masks.old new.now.place new.now.bytes.now result file.new masks.new }
{
    let mut words = [0u32; WORDS];
    let mut table = [0u32; TABLE];
    put_in(&mut words, &mut table, context, file, masks, new)
}

// The same in room by the size of the file. Clearing room for 8,192 words would be most of a small file's cost, so a file gets the least of
// these rooms that it fits, as in the check.
fn put_by_size(
    context: Context,
    file: &mut [u8],
    masks: &mut [u64],
    new: &NewCommand,
) -> Result<(), Refusal>
    requires { Settable context }
    ensures { PutDone (limits_of context) file.old masks.old new.now.place new.now.bytes.now result file.new masks.new }
{
    match file.len() {
        0..=1024 => put_sized::<256, 321>(context, file, masks, new),
        1025..=2048 => put_sized::<512, 593>(context, file, masks, new),
        2049..=4096 => put_sized::<1024, 1137>(context, file, masks, new),
        4097..=8192 => put_sized::<2048, 2225>(context, file, masks, new),
        8193..=16384 => put_sized::<4096, 4401>(context, file, masks, new),
        _ => put_sized::<8192, 8753>(context, file, masks, new),
    }
}

// The workbench call: 19, and then the rest.
pub fn put(
    settings: Settings,
    file: &mut [u8],
    masks: &mut [u64],
    place: usize,
    new: &[u8],
) -> Result<(), Refusal>
    ensures { PutDone (limits_given settings) file.old masks.old place new.now result
        file.new masks.new }
{
    if !are_within_ranges(settings) {
        return refused(19);
    }
    put_by_size(
        context_under(settings),
        file,
        masks,
        &NewCommand { place, bytes: new },
    )
}
