// Evidence, by the table of rules: the walk calls itself on children, and both the words left and the levels left fall
// (document 01, "Where to use each form").
ghost use Rattle.std.specs.Prelude.{◌≡◌};
ghost use Rattle.layout.specs.ReadEvidence.{evidence};
ghost use Rattle.words.specs.Rows.{item_meant, items_meant, judgement_meant};
ghost use Rattle.context.specs.Contexts.{context_of};
ghost use Rattle.reader.specs.Walk.{walk_of};
ghost use Rattle.reader.specs.Items.{item_walk, items_walk};

use super::command::read_command;
use super::expression::read_boolean;
use super::set::read_set;
use super::word::word_due;
use context::{Context, Refusal};
use words::Judgement;
use words::rows::{Item, evidence_row};

#[cycle(read_evidence_read_item_read_items)]
pub fn read_evidence(
    judgement: Judgement,
    w: &[u32],
    context: Context,
    at: usize,
    left: usize,
) -> Result<usize, Refusal>
    ensures { result ≡ walk_of (evidence (context_of context) w.now left (judgement_meant judgement) at) }
{
    let first = word_due(w, at, left)?;
    let Some(row) = evidence_row(judgement, first.kind, first.payload) else {
        return Err(Refusal {
            number: 5,
            place: at,
        });
    };
    read_items(row, w, context, first.next, first.below)
}

// What stands after an evidence word, one item after the other.
#[cycle(read_evidence_read_item_read_items)]
fn read_items(
    row: &[Item],
    w: &[u32],
    context: Context,
    at: usize,
    left: usize,
) -> Result<usize, Refusal>
    ensures { result ≡ items_walk (context_of context) w.now left (items_meant row.now) at }
{
    let mut p = at;
    for item in row {
        p = read_item(*item, w, context, p, left)?;
    }
    Ok(p)
}

#[cycle(read_evidence_read_item_read_items)]
fn read_item(
    item: Item,
    w: &[u32],
    context: Context,
    at: usize,
    left: usize,
) -> Result<usize, Refusal>
    ensures { result ≡ item_walk (context_of context) w.now left (item_meant item) at }
{
    match item {
        Item::Assertion => read_boolean(w, at, left),
        Item::Command => read_command(w, at, left),
        Item::Members => read_set(w, context, at, left),
        Item::Child(judgement) => read_evidence(judgement, w, context, at, left),
    }
}
