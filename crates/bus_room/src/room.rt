ghost use Rattle.memory.specs.View.{Memory, model_of};
ghost use Rattle.memory.specs.Lent.{lent_spawn};
ghost use Rattle.bus_room.specs.Room.{Makes};

use crate::cut::cut_voice;
use crate::next::{bus_port, next_out};
use graph_rows::edge_row::EdgeTable;
use graph_rows::node_row::NodeTable;
use memory::state::{CallResult, State};
use node::record::NodeId;
use steal_log::StealTable;
use voice_rows::row::VoiceTable;

// The lowest free port of `bus`, if there is one. Where there is none, voices of the bus are removed one after the other until there is
// one, at most `fuel` of them. A `for` and no `while`: the definition counts the tries too, and a `while` would count them beside its test.
pub fn make_room(
    s: State,
    nodes: &mut NodeTable,
    edges: &mut EdgeTable,
    voices: &mut VoiceTable,
    steals: &mut StealTable,
    bus: NodeId,
    rank: u32,
    fuel: usize,
) -> CallResult<Option<u32>>
    ensures { (m : Memory) → Makes fuel bus rank (model_of (lent_spawn s nodes.old edges.old voices.old steals.old m)) (model_of (lent_spawn result.state nodes.new edges.new voices.new steals.new m)) result.answer }
{
    let mut state = s;
    let mut port = bus_port(s, nodes, edges, bus);
    for _ in 0..fuel {
        if port.is_some() {
            break;
        }
        let Some(row) = next_out(state, nodes, voices, bus, rank) else {
            break;
        };
        state = cut_voice(state, nodes, edges, voices, steals, row);
        port = bus_port(state, nodes, edges, bus);
    }
    CallResult {
        state,
        answer: port,
    }
}
