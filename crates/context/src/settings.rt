// Limits as settings (document 02, request [6]).
ghost use Rattle.std.specs.Prelude.{◌≡◌};
ghost use Rattle.rules.specs.Context.{standard, within_ranges};
ghost use Rattle.context.specs.Settings.{limits_given};
ghost use Rattle.context.specs.Contexts.{limits_of};

use super::Context;

// The most comparisons of an implication, the most depth, the most members of a set.
#[derive(Clone, Copy, Debug, PartialEq, Eq)]
pub struct Settings {
    pub comparisons: usize,
    pub depth: usize,
    pub members: usize,
}

// Document 01's limits, which the calls that take no settings keep.
#[tactic(auto, unfolding(rules::specs::Context::standard))]
pub fn standard_settings() -> Settings
    ensures { limits_given result ≡ standard }
{
    Settings {
        comparisons: 10,
        depth: 128,
        members: 64,
    }
}

// Whether each is in its range; else 19 is due.
#[tactic(auto, unfolding(rules::specs::Context::within_ranges))]
pub fn are_within_ranges(settings: Settings) -> bool
    ensures { result ≡ within_ranges (limits_given settings) }
{
    settings.comparisons <= 16 && (1..=256).contains(&settings.depth) && settings.members <= 128
}

// What a file is read under: no procedure may be called yet.
pub fn context_under(settings: Settings) -> Context
    ensures { limits_of result ≡ limits_given settings }
{
    Context {
        comparisons: settings.comparisons,
        depth: settings.depth,
        members: settings.members,
        procedures: 0,
    }
}
