ghost use Rattle.std.specs.Prelude.{◌≡◌, Err};

use node::record::NodeId;
use store::config::Config;

// What is no table: what making fixed, how many rows each table holds, the sink, whether the graph is prepared, the next node id, the
// clock, the voice ids given out, and of the ring of steal records the total and the next place. It goes by value, and each lent table is a
// parameter of its own: a signature shows what a call may touch. The counts stand here and not beside their rows, which the caller owns;
// `prepared` is no option around `order`, since the order of the last good prepare can be read where the graph is unprepared.
#[derive(Clone, Copy)]
pub struct State {
    pub config: Config,
    pub nodes: usize,
    pub edges: usize,
    pub order: usize,
    pub voices: usize,
    pub events: usize,
    pub sink: Option<NodeId>,
    pub prepared: bool,
    pub next: u64,
    pub clock: u64,
    pub spawned: u64,
    pub stolen: u64,
    pub place: usize,
}

// The state that a call left, and what the call answers: a result, an outcome, a number. The state stands beside the answer and not in it,
// since it may change where the answer is no: a spawn that finds no port has removed voices, and a render whose prepare failed has gone on.
// Why this, `ConsoleResult`, `WishResult` and `SealResult` are four types, crate call_console says.
#[derive(Clone, Copy)]
pub struct CallResult<A> {
    pub state: State,
    pub answer: A,
}

// A call that is refused and leaves the state as it is.
pub fn refuse<A, E>(state: State, why: E) -> CallResult<Result<A, E>>
    ensures { (result.state ≡ state) × (result.answer ≡ Err why) }
{
    CallResult {
        state,
        answer: Err(why),
    }
}
