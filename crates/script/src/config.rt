// What making fixes, by the numbers of a script, which docs/REPLAY.md fixes. Crate state_words has such functions for a store's words, where a policy's
// number that is none is another policy: what plays the scripts is kept apart from the library that it is compared with.
// The enums are those of other crates, so that these are functions and no `From`.
ghost use Rattle.std.specs.Prelude.{◌≡◌};
ghost use Rattle.script.specs.Config.{budget_of, policy_of, scope_of, first_making};

use store::config::Making;
use voice::policy::{BudgetScope, StealPolicy};

// Whether there is a budget, and the budget.
pub fn budget_of(flag: u8, n: usize) -> Option<usize>
    ensures { result ≡ budget_of flag n }
{
    (flag != 0).then_some(n)
}

pub fn policy_of(n: u8) -> StealPolicy
    ensures { result ≡ policy_of n }
{
    match n {
        0 => StealPolicy::Reject,
        1 => StealPolicy::Oldest,
        2 => StealPolicy::Newest,
        _ => StealPolicy::Quietest,
    }
}

pub fn scope_of(n: u8) -> BudgetScope
    ensures { result ≡ scope_of n }
{
    match n {
        0 => BudgetScope::Global,
        _ => BudgetScope::PerGroup,
    }
}

// What a store is made by where nothing has said it: before the first making of a script, and for the vectors of the graph.
pub fn first_making() -> Making
    ensures { result ≡ first_making }
{
    Making {
        rate: 48000.0,
        block: 64,
        budget: None,
        policy: StealPolicy::Reject,
        scope: BudgetScope::Global,
        table: false,
    }
}
