// What stands after an evidence word, by the table of rules.
ghost use Rattle.std.specs.Prelude.{◌≡◌};
ghost use Rattle.words.specs.Rows.{item_meant, row_meant, row_of};
ghost use Rattle.goals.specs.Children.{judgement_of};
ghost use Rattle.judge.specs.Row.{is_carried, PastCarried};

use ends::end_or_zero;
use goals::Goal;
use words::rows::{Item, flow_row, pre_row, set_row};

// The place past what is carried, and the items from there on.
#[derive(Clone, Copy)]
pub struct First<'a> {
    pub at: usize,
    pub rest: &'a [Item],
}

// The row of a rule for a goal.
pub fn row_at(goal: Goal, rule: u32) -> Option<&'static [Item]>
    ensures { row_meant result ≡ row_of (judgement_of goal) rule }
{
    match goal {
        Goal::Flow(_, _, _) => flow_row(rule),
        Goal::Set(_, _) => set_row(rule),
        Goal::Pre(_, _, _) => pre_row(rule),
    }
}

// Whether an item is carried, and no child.
fn is_carried(item: Item) -> bool
    ensures { result ≡ is_carried (item_meant item) }
{
    match item {
        Item::Assertion | Item::Command | Item::Members => true,
        Item::Child(_) => false,
    }
}

// Past what is carried, of a row whose items stand from `at` on.
pub fn past_carried<'a>(ends: &[u32], row: &'a [Item], at: usize) -> First<'a>
    ensures { PastCarried ends.now row.now «at» result }
{
    let mut next = at;
    for (i, item) in row.iter().enumerate() {
        if !is_carried(*item) {
            return First {
                at: next,
                rest: &row[i..],
            };
        }
        next = end_or_zero(ends, next);
    }
    First {
        at: next,
        rest: &row[row.len()..],
    }
}
