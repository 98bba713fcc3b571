ghost use Rattle.model.specs.Call.{rendered};
ghost use Rattle.model.specs.Call as call;
ghost use Rattle.memory.specs.View.{Memory};
ghost use Rattle.memory.specs.Lent.{lent_render};
ghost use Rattle.memory.specs.Called.{Called, Kept};

use crate::block::{block_to, readied};
use crate::due::{any_free, apply_events};
use event_table::row::EventTable;
use graph_rows::edge_row::EdgeTable;
use graph_rows::node_row::NodeTable;
use memory::state::State;
use node::refusal::Refusal;
use order_table::OrderTable;
use store::answer::Rendered;
use voice_rows::row::VoiceTable;

// The state that a render left, what it answers, and how many events it took. Three fields and no `CallResult` of a pair: a pair would name
// neither.
#[derive(Clone, Copy)]
pub struct Rendering {
    pub state: State,
    pub answer: Rendered,
    pub taken: usize,
}

// A block is rendered: what sounds is the host's to make, from the processing order. What became of the events that it takes, at most 256,
// goes into `out`, in event order: 0 applied, 1 no such voice, 2 no such parameter, 3 node takes none of that sort.
pub fn render(
    s: State,
    nodes: &mut NodeTable,
    edges: &mut EdgeTable,
    order: &mut OrderTable,
    voices: &mut VoiceTable,
    events: &mut EventTable,
    out: &mut [u8],
) -> Rendering
    ensures is { (m : Memory) → Called (call.render out.old) (lent_render s nodes.old edges.old order.old voices.old events.old m) (rendered result.answer result.taken out.new) (lent_render result.state nodes.new edges.new order.new voices.new events.new m) }
    ensures same { (m : Memory) → Kept (rendered result.answer result.taken out.new) (lent_render s nodes.old edges.old order.old voices.old events.old m) (lent_render result.state nodes.new edges.new order.new voices.new events.new m) }
{
    let Some(end) = s.clock.checked_add(s.config.block as u64) else {
        return Rendering {
            state: s,
            answer: Rendered::Refused(Refusal::ClockEnd),
            taken: 0,
        };
    };
    if out.len() < 256 {
        return Rendering {
            state: s,
            answer: Rendered::Refused(Refusal::ShortBuffer),
            taken: 0,
        };
    }
    let frees = any_free(events, s.events, end);
    let after = apply_events(s, nodes, edges, voices, events, end, out);
    let ready = readied(after.state, nodes, edges, order, frees);
    let last = block_to(ready.state, voices, ready.answer, end);
    Rendering {
        state: last.state,
        answer: last.answer,
        taken: after.answer,
    }
}
