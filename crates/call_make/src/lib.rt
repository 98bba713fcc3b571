// Making a store in lent memory: it gives the state. Nothing is read of the tables and nothing stored in them.
#![tactic(auto)]

ghost use Rattle.std.specs.Prelude.{◌≡◌};
ghost use Rattle.node.specs.Refusal.{says};
ghost use Rattle.graph.specs.Tables.{answer_of};
ghost use Rattle.model.specs.Refuse.{make_refusal};
ghost use Rattle.model.specs.Make.{make, new_model, config_of, refusal_of};
ghost use Rattle.memory.specs.View.{Memory, model_of};
ghost use Rattle.memory.specs.Lent.{lent_state};
ghost use Rattle.call_make.specs.Made.{if_done};

use bus::sample_rate;
use memory::state::{CallResult, State};
use node::refusal::Refusal;
use store::config::{Config, Making};

// Whether making is refused: 1 the sample rate, whatever it was refused for, 2 the block size, 3 the budget, 20 the fade table at another
// rate than its own.
fn make_test(
    rate: Result<u32, Refusal>,
    block: usize,
    budget: Option<usize>,
    table: bool,
) -> Result<(), Refusal>
    ensures { result ≡ answer_of (make_refusal (says rate) block budget table) }
{
    let hertz = rate.or(Err(Refusal::SampleRate))?;
    if !(1..=128).contains(&block) {
        return Err(Refusal::BlockSize);
    }
    if budget.is_some_and(|most| 64 < most) {
        return Err(Refusal::BudgetTooLarge);
    }
    if table && hertz != 48000 {
        return Err(Refusal::TableRate);
    }
    Ok(())
}

// The state of a store with nothing in it, whatever stands in its tables.
fn new_state(config: Config) -> State
    ensures { (m : Memory) → model_of (lent_state result m) ≡ new_model config }
{
    State {
        config,
        nodes: 0,
        edges: 0,
        order: 0,
        voices: 0,
        events: 0,
        sink: None,
        prepared: false,
        next: 0,
        clock: 0,
        spawned: 0,
        stolen: 0,
        place: 0,
    }
}

// A new store, of what the host asks for. Where it is refused, the state is one of the arguments as they are, at 0 hertz if the rate is:
// the clauses promise a state then too, so that it stands beside the answer and is none of its cases. No `From` of what is asked for: both
// types are crate store's, and the test of a rate is crate bus's.
pub fn make(making: Making) -> CallResult<Result<(), Refusal>>
    ensures is { (m : Memory) → if_done result.answer (model_of (lent_state result.state m)) ≡ make making }
    ensures answer { result.answer ≡ answer_of (refusal_of making) }
    ensures state { (m : Memory) → model_of (lent_state result.state m) ≡ new_model (config_of making) }
{
    let rate = sample_rate(making.rate);
    let config = Config {
        rate: rate.unwrap_or(0),
        block: making.block,
        budget: making.budget,
        policy: making.policy,
        scope: making.scope,
        table: making.table,
    };
    CallResult {
        state: new_state(config),
        answer: make_test(rate, making.block, making.budget, making.table),
    }
}
