// Refusals 2 to 6 and 16 of the file and of the changed one: where the one whose command takes more levels passes, so does the other.
ghost use Rattle.std.specs.Prelude.{◌≡◌, ◌/◌, length, take};
ghost use Rattle.layout.specs.Bytes.{words_of};
ghost use Rattle.splice.specs.Walk.{CanWalk, CanPutBack, NewLoaded, NewRead, OldIfRead, WalkedFile, WalkedOld, WalkedFirst};

use super::extent::{Extent, extent_at};
use super::simple::is_read_to;
use context::{Context, Refusal};
use file::read_calls;
use reader::Places;
use words::load::load;

// The bytes of a new command, and the place from which its words are put.
#[derive(Clone, Copy)]
pub struct NewCommand<'a> {
    pub place: usize,
    pub bytes: &'a [u8],
}

// The places of a file that refusals 2 to 6 and 16 let pass, and whether they are known to let the changed words pass too. `both` stays a flag:
// the places are the file's in both cases.
#[derive(Clone, Copy)]
pub struct Walked {
    pub places: Places,
    pub both: bool,
}

// The file by itself.
fn walk_file(
    words: &[u32],
    table: &mut [u32],
    context: Context,
    file: &[u8],
) -> Result<Walked, Refusal>
    requires { CanWalk file.now words.now table.old }
    ensures { WalkedFile context file.now result table.new }
{
    let n = file.len() / 4;
    let places = read_calls(&words[..n], table, context)?;
    Ok(Walked {
        places,
        both: false,
    })
}

// The file's words from a place up to another, where others stand.
fn put_back(words: &mut [u32], file: &[u8], place: usize, to: usize)
    requires { CanPutBack file.now words.old place to }
    ensures { take (length file.now / 4) words.new ≡ words_of file.now }
{
    let start = 4 * place;
    let past = 4 * to;
    load(&file[start..past], &mut words[place..]);
}

// The changed words stand there, and the file is walked.
fn walk_back(
    words: &mut [u32],
    table: &mut [u32],
    context: Context,
    file: &[u8],
    new: &NewCommand,
) -> Result<Walked, Refusal>
    requires { NewLoaded file.now new.now.place new.now.bytes.now words.old table.old }
    ensures { WalkedFirst context file.now new.now.place new.now.bytes.now result words.new table.new }
{
    let to = new.place + new.bytes.len() / 4;
    put_back(words, file, new.place, to);
    walk_file(words, table, context, file)
}

// The changed words passed: the file's pass too if the old command is read with as many levels as the new one takes.
fn walk_old(
    words: &[u32],
    table: &mut [u32],
    context: Context,
    file: &[u8],
    places: Places,
    place: usize,
    to: usize,
    levels: usize,
) -> Result<Walked, Refusal>
    requires { OldIfRead context file.now words.now places table.old place to levels }
    ensures { WalkedOld context file.now places table.old result table.new }
{
    let n = file.len() / 4;
    if is_read_to(&words[..n], place, to, levels) {
        return Ok(Walked { places, both: true });
    }
    walk_file(words, table, context, file)
}

// The changed words stand there, and are walked: their new command takes more levels than the old one.
fn walk_new(
    words: &mut [u32],
    table: &mut [u32],
    context: Context,
    file: &[u8],
    new: &NewCommand,
    extent: Extent,
) -> Result<Walked, Refusal>
    requires { NewRead context file.now new.now.place new.now.bytes.now words.old table.old extent }
    ensures { WalkedFirst context file.now new.now.place new.now.bytes.now result words.new table.new }
{
    let n = file.len() / 4;
    let to = new.place + new.bytes.len() / 4;
    let changed = read_calls(&words[..n], table, context);
    put_back(words, file, new.place, to);
    match changed {
        Ok(places) => {
            walk_old(
                words,
                table,
                context,
                file,
                places,
                new.place,
                to,
                extent.levels,
            )
        }
        Err(_) => walk_file(words, table, context, file),
    }
}

// The changed words stand there; the old command takes `old` levels.
fn walk_changed(
    words: &mut [u32],
    table: &mut [u32],
    context: Context,
    file: &[u8],
    new: &NewCommand,
    old: usize,
) -> Result<Walked, Refusal>
    requires { NewLoaded file.now new.now.place new.now.bytes.now words.old table.old }
    ensures { WalkedFirst context file.now new.now.place new.now.bytes.now result words.new table.new }
{
    let n = file.len() / 4;
    let to = new.place + new.bytes.len() / 4;
    let extent = extent_at(&words[..n], new.place, context.depth);
    if extent.levels <= old {
        return walk_back(words, table, context, file, new);
    }
    if !is_read_to(&words[..n], new.place, to, context.depth) {
        return walk_back(words, table, context, file, new);
    }
    walk_new(words, table, context, file, new, extent)
}

// Refusals 2 to 6 and 16 of a file whose words are loaded. Where the new command takes more levels than the old one, the changed words are
// walked: if they pass, so does the file, with the same places.
pub fn walk_first(
    words: &mut [u32],
    table: &mut [u32],
    context: Context,
    file: &[u8],
    new: &NewCommand,
) -> Result<Walked, Refusal>
    requires { CanWalk file.now words.old table.old }
    ensures { WalkedFirst context file.now new.now.place new.now.bytes.now result words.new table.new }
{
    let n = file.len() / 4;
    if n <= new.place {
        return walk_file(words, table, context, file);
    }
    if n - new.place < new.bytes.len() / 4 {
        return walk_file(words, table, context, file);
    }
    let extent = extent_at(&words[..n], new.place, context.depth);
    load(new.bytes, &mut words[new.place..]);
    walk_changed(words, table, context, file, new, extent.levels)
}
