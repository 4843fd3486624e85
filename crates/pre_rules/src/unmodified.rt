ghost use Rattle.goals.specs.Files.{CanTryIn, StepIn};
ghost use Rattle.goals.specs.declared.Goal.TheVariants.{Pre};

use goals::ensure;
use goals::file::File;
use implication::Failure;
use rule_laws::kept::is_kept;
use rule_laws::same::is_same_assertion;

// Rule 27. φ is φ', and nothing in it is modified.
pub fn rule_27(file: &File, at: usize, f: usize, c: usize, g: usize) -> Result<(), Failure>
    requires { CanTryIn file.now 27 (Pre f c g) «at» }
    ensures { StepIn file.now (Pre f c g) «at» result }
{
    ensure(is_same_assertion(file.words, file.ends, f, g))?;
    ensure(is_kept(file, f, c))
}
