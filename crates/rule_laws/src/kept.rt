ghost use Rattle.rule_laws.specs.Sameness.{CanKeep, KeptAt};

use ends::end_at;
use goals::file::File;
use masks::modified_at;
use scan::range::unmarked;

// Whether the command at c modifies no identifier of the expression or set at e.
pub fn is_kept(file: &File, e: usize, c: usize) -> bool
    requires { CanKeep file.now.words.now file.now.ends.now file.now.masks.now e c }
    ensures { KeptAt file.now.words.now file.now.ends.now e c result }
{
    let mask = modified_at(file.words, file.ends, file.masks, c);
    let to = end_at(file.ends, e);
    unmarked(file.words, e, to, mask)
}
