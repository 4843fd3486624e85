// Arithmetic and array expressions. The words left from a place on fall.
ghost use Rattle.language.specs.Syntax.{Arithmetic, Array};
ghost use Rattle.heads.specs.Stands.{ExpressionStands};
ghost use Rattle.arithmetic.specs.Worked.{outcome};
ghost use Rattle.evaluate.specs.Evaluated.{CanSelect, Evaluates, Fills, filled};

use super::store::fetch;
use arithmetic::{Stop, operate, place};
use ends::end_at;
use heads::{arithmetic_head, array_head};
use words::{ArithmeticWord, ArrayWord};

// An operand: a constant or a scalar makes no further call.
#[cycle(eval_arithmetic_eval_array_eval_operand_eval_select_select_whole)]
pub fn eval_operand(
    w: &[u32; 8192],
    ends: &[u32; 8753],
    at: usize,
    scalars: &[i64; 32],
    values: &[i64; 2048],
) -> Result<i64, Stop>
    requires { ExpressionStands w.now ends.now Arithmetic «at» }
    ensures { Evaluates Arithmetic w.now ends.now scalars.now values.now «at» (outcome result) }
{
    let head = arithmetic_head(w, at);
    match head {
        ArithmeticWord::Constant(z) => Ok(z),
        ArithmeticWord::Scalar(x) => Ok(scalars[x as usize]),
        _ => eval_arithmetic(w, ends, at, scalars, values),
    }
}

#[cycle(eval_arithmetic_eval_array_eval_operand_eval_select_select_whole)]
pub fn eval_arithmetic(
    w: &[u32; 8192],
    ends: &[u32; 8753],
    at: usize,
    scalars: &[i64; 32],
    values: &[i64; 2048],
) -> Result<i64, Stop>
    requires { ExpressionStands w.now ends.now Arithmetic «at» }
    ensures { Evaluates Arithmetic w.now ends.now scalars.now values.now «at» (outcome result) }
{
    let head = arithmetic_head(w, at);
    match head {
        ArithmeticWord::Constant(z) => Ok(z),
        ArithmeticWord::Scalar(x) => Ok(scalars[x as usize]),
        ArithmeticWord::Operation(o) => {
            let a = eval_operand(w, ends, at + 1, scalars, values)?;
            let second = end_at(ends, at + 1);
            let b = eval_operand(w, ends, second, scalars, values)?;
            operate(o, a, b)
        }
        ArithmeticWord::Select => eval_select(w, ends, at, scalars, values),
        ArithmeticWord::Other => unreachable!(),
    }
}

// A select stands at the place: array, then index. Of an array of the store only the value at the index is read.
#[cycle(eval_arithmetic_eval_array_eval_operand_eval_select_select_whole)]
fn eval_select(
    w: &[u32; 8192],
    ends: &[u32; 8753],
    at: usize,
    scalars: &[i64; 32],
    values: &[i64; 2048],
) -> Result<i64, Stop>
    requires { CanSelect w.now ends.now «at» }
    ensures { Evaluates Arithmetic w.now ends.now scalars.now values.now «at» (outcome result) }
{
    let head = array_head(w, at + 1);
    match head {
        ArrayWord::Identifier(a) => {
            let second = end_at(ends, at + 1);
            let i = eval_operand(w, ends, second, scalars, values)?;
            let n = place(i)?;
            Ok(values[64 * a as usize + n])
        }
        _ => select_whole(w, ends, at, scalars, values),
    }
}

// The same of any array, whose 64 values are worked out.
#[cycle(eval_arithmetic_eval_array_eval_operand_eval_select_select_whole)]
fn select_whole(
    w: &[u32; 8192],
    ends: &[u32; 8753],
    at: usize,
    scalars: &[i64; 32],
    values: &[i64; 2048],
) -> Result<i64, Stop>
    requires { CanSelect w.now ends.now «at» }
    ensures { Evaluates Arithmetic w.now ends.now scalars.now values.now «at» (outcome result) }
{
    let mut scratch = [0i64; 64];
    eval_array(w, ends, at + 1, scalars, values, &mut scratch)?;
    let second = end_at(ends, at + 1);
    let i = eval_operand(w, ends, second, scalars, values)?;
    let n = place(i)?;
    Ok(scratch[n])
}

// The array's values at 0 to 63 go to the scratch.
#[cycle(eval_arithmetic_eval_array_eval_operand_eval_select_select_whole)]
pub fn eval_array(
    w: &[u32; 8192],
    ends: &[u32; 8753],
    at: usize,
    scalars: &[i64; 32],
    values: &[i64; 2048],
    scratch: &mut [i64; 64],
) -> Result<(), Stop>
    requires { ExpressionStands w.now ends.now Array «at» }
    ensures { Fills w.now ends.now scalars.now values.now «at» (filled result scratch.new) }
{
    let head = array_head(w, at);
    match head {
        ArrayWord::Identifier(a) => fetch(values, a as usize, scratch),
        ArrayWord::Zeros => scratch.fill(0),
        ArrayWord::Update => {
            eval_array(w, ends, at + 1, scalars, values, scratch)?;
            let second = end_at(ends, at + 1);
            let i = eval_operand(w, ends, second, scalars, values)?;
            let n = place(i)?;
            let third = end_at(ends, second);
            let v = eval_arithmetic(w, ends, third, scalars, values)?;
            scratch[n] = v;
        }
        ArrayWord::Other => unreachable!(),
    }
    Ok(())
}
