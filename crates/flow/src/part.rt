// The parts of an accepted file: where its main program, its precondition and its postcondition stand.
ghost use Rattle.std.specs.Prelude.{◌≡◌, ◌*◌, ◌≤◌, length};
ghost use Rattle.layout.specs.Verdict.{bytes_between, packed_places};
ghost use Rattle.context.specs.Settings.{limits_given};
ghost use Rattle.flow.specs.Part.{range_at, bytes_of, places_of};

use super::outcome_under;
use context::settings::Settings;
use reader::Places;

#[derive(Clone, Copy)]
pub(crate) enum Part {
    Program,
    Precondition,
    Postcondition,
}

// The place of a part's first word, and the place past its last.
fn range(part: Part, places: Places) -> (usize, usize)
    ensures { result ≡ range_at part places }
{
    match part {
        Part::Program => (places.start, places.pre),
        Part::Precondition => (places.pre, places.post),
        Part::Postcondition => (places.post, places.evidence),
    }
}

// The bytes of the words between two places.
fn between(file: &[u8], from: usize, to: usize) -> &[u8]
    requires { (from ≤ to) × (4 * to ≤ length file.now) }
    ensures { result.now ≡ bytes_between file.now from to }
{
    let a = 4 * from;
    let b = 4 * to;
    &file[a..b]
}

// The bytes of a part, none if the file is refused.
pub(crate) fn part_bytes(file: &[u8], settings: Settings, part: Part) -> &[u8]
    ensures { result.now ≡ bytes_of part (limits_given settings) file.now }
{
    match outcome_under(file, settings) {
        Ok(accepted) => {
            let (from, to) = range(part, accepted.places);
            between(file, from, to)
        }
        Err(_) => &file[..0],
    }
}

// Two places as one number.
fn packed_places(first: usize, past: usize) -> u32
    requires { (first ≤ 8192) × (past ≤ 8192) }
    ensures { result ≡ packed_places first past }
{
    first as u32 * 65536 + past as u32
}

// The places of a part as one number, 0 if the file is refused.
pub(crate) fn part_places(file: &[u8], settings: Settings, part: Part) -> u32
    ensures { result ≡ places_of part (limits_given settings) file.now }
{
    match outcome_under(file, settings) {
        Ok(accepted) => {
            let (first, past) = range(part, accepted.places);
            packed_places(first, past)
        }
        Err(_) => 0,
    }
}
