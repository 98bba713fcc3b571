// After the events: a prepare, if there was a free, and the block itself.
ghost use Rattle.std.specs.Prelude.{◌≡◌, ◌&&◌, is_some};
ghost use Rattle.model.specs.Render.{heard};
ghost use Rattle.memory.specs.View.{Memory, model_of};
ghost use Rattle.memory.specs.Lent.{lent_order, lent_voice_table};
ghost use Rattle.call_render.specs.Blocks.{heard_in, readied, block_to};

use call_host::preparing::prepare;
use graph_rows::edge_row::EdgeTable;
use graph_rows::node_row::NodeTable;
use memory::parts::with_clock;
use memory::state::{CallResult, State};
use order_table::OrderTable;
use store::answer::Rendered;
use voice_rows::fade::move_fades;
use voice_rows::row::VoiceTable;

// What is heard: a prepared graph with a sink sounds.
fn heard_of(s: State) -> Rendered
    ensures { result ≡ heard (s.prepared && is_some s.sink) }
{
    if s.prepared && s.sink.is_some() {
        Rendered::Sounding
    } else {
        Rendered::Silent
    }
}

// Before the block: the graph is prepared, if there was a free. The answer is what the render will answer.
// It takes the flag, since with the test in `render` both ways would have to be written there, with their states, and no line would go.
pub(crate) fn readied(
    s: State,
    nodes: &NodeTable,
    edges: &EdgeTable,
    order: &mut OrderTable,
    freed: bool,
) -> CallResult<Rendered>
    ensures { (m : Memory) → heard_in result (lent_order result.state nodes.now edges.now order.new m) ≡ readied freed (model_of (lent_order s nodes.now edges.now order.old m)) }
{
    if !freed {
        return CallResult {
            state: s,
            answer: heard_of(s),
        };
    }
    let ready = prepare(s, nodes, edges, order);
    let answer = match ready.answer {
        Err(r) => Rendered::Unprepared(r),
        Ok(()) => heard_of(ready.state),
    };
    CallResult {
        state: ready.state,
        answer,
    }
}

// The block itself: the fades move if it sounds, and the clock is then at `end`.
pub(crate) fn block_to(
    s: State,
    voices: &mut VoiceTable,
    answer: Rendered,
    end: u64,
) -> CallResult<Rendered>
    ensures { (m : Memory) → heard_in result (lent_voice_table result.state voices.new m) ≡ block_to end answer (model_of (lent_voice_table s voices.old m)) }
{
    if matches!(answer, Rendered::Sounding) {
        move_fades(voices, s.voices, s.config.block as u64);
    }
    CallResult {
        state: with_clock(s, end),
        answer,
    }
}
