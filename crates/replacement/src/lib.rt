// The workbench call (document 02, request [5]): its definition and what its steps ask for; its code is crate `workbench`.
#![tactic(auto)]

ghost use Rattle.std.specs.Prelude.{◌≡◌, Err};
ghost use Rattle.context.specs.Contexts.{refusal};

use context::Refusal;

// A refusal at place 0.
pub fn refused(number: u32) -> Result<(), Refusal>
    ensures { result ≡ Err (refusal number 0) }
{
    Err(Refusal { number, place: 0 })
}
