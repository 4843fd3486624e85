// Boolean expressions. A false left side settles an and, a true one an or, and the right side is not looked at (document 02,
// request [1]). The words left from a place on fall.
ghost use Rattle.language.specs.Syntax.{Boolean};
ghost use Rattle.heads.specs.Stands.{ExpressionStands};
ghost use Rattle.arithmetic.specs.Worked.{outcome};
ghost use Rattle.evaluate.specs.Evaluated.{Evaluates};

use super::expression::eval_operand;
use arithmetic::{Stop, relate};
use ends::end_at;
use heads::boolean_head;
use words::BooleanWord;

pub fn eval_boolean(
    w: &[u32; 8192],
    ends: &[u32; 8753],
    at: usize,
    scalars: &[i64; 32],
    values: &[i64; 2048],
) -> Result<bool, Stop>
    requires { ExpressionStands w.now ends.now Boolean «at» }
    ensures { Evaluates Boolean w.now ends.now scalars.now values.now «at» (outcome result) }
{
    let head = boolean_head(w, at);
    match head {
        BooleanWord::Compare(c) => {
            let a = eval_operand(w, ends, at + 1, scalars, values)?;
            let second = end_at(ends, at + 1);
            let b = eval_operand(w, ends, second, scalars, values)?;
            Ok(relate(c, a, b))
        }
        BooleanWord::Truth(t) => Ok(t),
        BooleanWord::And => {
            let a = eval_boolean(w, ends, at + 1, scalars, values)?;
            Ok(a && eval_boolean(w, ends, end_at(ends, at + 1), scalars, values)?)
        }
        BooleanWord::Or => {
            let a = eval_boolean(w, ends, at + 1, scalars, values)?;
            Ok(a || eval_boolean(w, ends, end_at(ends, at + 1), scalars, values)?)
        }
        BooleanWord::Not => {
            let a = eval_boolean(w, ends, at + 1, scalars, values)?;
            Ok(!a)
        }
        BooleanWord::Other => unreachable!(),
    }
}
