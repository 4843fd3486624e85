// A program: a command, its precondition, its postcondition and flow evidence, each outermost.
ghost use Rattle.std.specs.Prelude.{◌≡◌};
ghost use Rattle.layout.specs.Program.{program};
ghost use Rattle.context.specs.Contexts.{context_of};
ghost use Rattle.reader.specs.Program.{program_layout};

use super::Places;
use super::command::read_command;
use super::evidence::read_evidence;
use super::set::read_set;
use context::{Context, Refusal};
use words::Judgement;

// Refusals 3 to 5.
pub fn read_program(w: &[u32], context: Context, at: usize) -> Result<Places, Refusal>
    ensures { result ≡ program_layout (program (context_of context) w.now at) }
{
    let pre = read_command(w, at, context.depth)?;
    let post = read_set(w, context, pre, context.depth)?;
    let evidence = read_set(w, context, post, context.depth)?;
    let end = read_evidence(Judgement::Flow, w, context, evidence, context.depth)?;
    Ok(Places {
        start: at,
        pre,
        post,
        evidence,
        end,
    })
}
