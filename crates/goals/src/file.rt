// The file that is judged, with what was worked out of it.
ghost use Rattle.masks.specs.Filled.{MasksOf};

use context::Context;

// The words of a file, the list of ends, what each command modifies, and the context that it is judged under.
#[derive(Clone, Copy)]
pub struct File<'a> {
    pub words: &'a [u32],
    pub ends: &'a [u32],
    pub masks: &'a [u64],
    pub context: Context,
    pub ghost masks_of: { MasksOf words.now ends.now masks.now },
}
