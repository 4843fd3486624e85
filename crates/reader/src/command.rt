// Commands. The words left fall.
ghost use Rattle.std.specs.Prelude.{◌≡◌};
ghost use Rattle.reader.specs.Walk.{command_walk};

use super::Sort;
use super::expression::{read_arithmetic, read_array, read_operand};
use super::word::word_due;
use context::Refusal;
use words::CommandWord;
use words::decode::command_word;

pub fn read_command(w: &[u32], at: usize, left: usize) -> Result<usize, Refusal>
    ensures { result ≡ command_walk w.now left at }
{
    let first = word_due(w, at, left)?;
    match command_word(first.kind, first.payload) {
        CommandWord::Skip => Ok(first.next),
        CommandWord::Sequence => {
            let second = read_command(w, first.next, first.below)?;
            read_command(w, second, first.below)
        }
        CommandWord::Assert => read_operand(Sort::Boolean, w, Ok(first.next), first.below),
        CommandWord::AssignScalar(_) => read_arithmetic(w, first.next, first.below),
        CommandWord::AssignArray(_) => read_array(w, first.next, first.below),
        CommandWord::If => {
            let then = read_operand(Sort::Boolean, w, Ok(first.next), first.below)?;
            let other = read_command(w, then, first.below)?;
            read_command(w, other, first.below)
        }
        CommandWord::While => {
            let body = read_operand(Sort::Boolean, w, Ok(first.next), first.below)?;
            read_command(w, body, first.below)
        }
        CommandWord::For(_, _) => read_command(w, first.next, first.below),
        CommandWord::Call(_) => Ok(first.next),
        CommandWord::Other => Err(Refusal {
            number: 5,
            place: at,
        }),
    }
}
