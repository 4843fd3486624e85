ghost use Rattle.goals.specs.Files.{CanTryIn, StepIn};
ghost use Rattle.goals.specs.declared.Goal.TheVariants.{Pre};

use goals::ensure;
use goals::file::File;
use implication::Failure;
use pre_compound::condition::{is_join, is_replaced};
use rule_laws::same::is_same_assertion;
use words::kinds::{ARRAY_WORD, ASSERT, KIND, SCALAR_WORD, SKIP, TO_ARRAY, TO_SCALAR};

// Rule 22. Skip; φ is φ'.
pub fn rule_22(file: &File, at: usize, f: usize, c: usize, g: usize) -> Result<(), Failure>
    requires { CanTryIn file.now 22 (Pre f c g) «at» }
    ensures { StepIn file.now (Pre f c g) «at» result }
{
    ensure(file.words[c] / KIND == SKIP)?;
    ensure(is_same_assertion(file.words, file.ends, f, g))
}

// Rule 24. Scalar assignment; φ is φ' with the right side for the word 2:x.
pub fn rule_24(file: &File, at: usize, f: usize, c: usize, g: usize) -> Result<(), Failure>
    requires { CanTryIn file.now 24 (Pre f c g) «at» }
    ensures { StepIn file.now (Pre f c g) «at» result }
{
    let x = file.words[c];
    ensure(x / KIND == TO_SCALAR)?;
    ensure(is_replaced(file, f, g, SCALAR_WORD + x % KIND, c + 1))
}

// Rule 25. Array assignment; φ is φ' with the right side for the word 16:a.
pub fn rule_25(file: &File, at: usize, f: usize, c: usize, g: usize) -> Result<(), Failure>
    requires { CanTryIn file.now 25 (Pre f c g) «at» }
    ensures { StepIn file.now (Pre f c g) «at» result }
{
    let x = file.words[c];
    ensure(x / KIND == TO_ARRAY)?;
    ensure(is_replaced(file, f, g, ARRAY_WORD + x % KIND, c + 1))
}

// Rule 26. Assert; φ is φ' ∧ B.
pub fn rule_26(file: &File, at: usize, f: usize, c: usize, g: usize) -> Result<(), Failure>
    requires { CanTryIn file.now 26 (Pre f c g) «at» }
    ensures { StepIn file.now (Pre f c g) «at» result }
{
    ensure(file.words[c] / KIND == ASSERT)?;
    ensure(is_join(file, f, g, c + 1))
}
