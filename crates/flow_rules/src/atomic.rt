// Commands of one step: skip, the assignments, assert.
ghost use Rattle.goals.specs.Files.{CanTryIn, StepIn};
ghost use Rattle.goals.specs.declared.Goal.TheVariants.{Flow};

use ends::end_or_zero;
use goals::ensure;
use goals::file::File;
use implication::Failure;
use matching::cursor::Put;
use sets::rule::{same_replaced, same_under, same_written};
use words::kinds::{ARRAY_WORD, ASSERT, KIND, SCALAR_WORD, SKIP, TO_ARRAY, TO_SCALAR};

// Rule 1. Skip; P same as Q.
pub fn rule_1(file: &File, at: usize, p: usize, c: usize, q: usize) -> Result<(), Failure>
    requires { CanTryIn file.now 1 (Flow p c q) «at» }
    ensures { StepIn file.now (Flow p c q) «at» result }
{
    ensure(file.words[c] / KIND == SKIP)?;
    ensure(same_written(file.words, file.ends, p, q))
}

// Rule 3. Scalar assignment; P same as Q with the right side for the word 2:x.
pub fn rule_3(file: &File, at: usize, p: usize, c: usize, q: usize) -> Result<(), Failure>
    requires { CanTryIn file.now 3 (Flow p c q) «at» }
    ensures { StepIn file.now (Flow p c q) «at» result }
{
    let x = file.words[c];
    ensure(x / KIND == TO_SCALAR)?;
    let from = c + 1;
    let to = end_or_zero(file.ends, from);
    let put = Put {
        word: SCALAR_WORD + x % KIND,
        from,
        to,
    };
    ensure(same_replaced(file.words, file.ends, p, q, put))
}

// Rule 4. Array assignment; P same as Q with the right side for the word 16:a.
pub fn rule_4(file: &File, at: usize, p: usize, c: usize, q: usize) -> Result<(), Failure>
    requires { CanTryIn file.now 4 (Flow p c q) «at» }
    ensures { StepIn file.now (Flow p c q) «at» result }
{
    let x = file.words[c];
    ensure(x / KIND == TO_ARRAY)?;
    let from = c + 1;
    let to = end_or_zero(file.ends, from);
    let put = Put {
        word: ARRAY_WORD + x % KIND,
        from,
        to,
    };
    ensure(same_replaced(file.words, file.ends, p, q, put))
}

// Rule 5. Assert; P same as Q under B.
pub fn rule_5(file: &File, at: usize, p: usize, c: usize, q: usize) -> Result<(), Failure>
    requires { CanTryIn file.now 5 (Flow p c q) «at» }
    ensures { StepIn file.now (Flow p c q) «at» result }
{
    ensure(file.words[c] / KIND == ASSERT)?;
    ensure(same_under(file.words, file.ends, p, q, c + 1))
}
