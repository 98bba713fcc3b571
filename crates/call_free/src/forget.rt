// The workers: voices are removed from the lent tables, one or several.
ghost use Rattle.std.specs.Prelude.{◌≡◌};
ghost use Rattle.model.specs.Model.{without_voice};
ghost use Rattle.memory.specs.View.{Memory, model_of};
ghost use Rattle.memory.specs.Lent.{lent_voices};
ghost use Rattle.call_free.specs.Forgotten.{without_ids};

use graph_rows::edge_row::EdgeTable;
use graph_rows::node_row::NodeTable;
use graph_tables::removal::remove_voices;
use memory::parts::{with_graph, with_voices};
use memory::state::State;
use node::record::VoiceId;
use voice_rows::row::VoiceTable;

// The voices of `ids` are removed, as if one after the other; each table is passed over once. Without ids nothing is stored, and what
// was prepared stays prepared.
pub fn forget_voices(
    s: State,
    nodes: &mut NodeTable,
    edges: &mut EdgeTable,
    voices: &mut VoiceTable,
    ids: &[u64],
) -> State
    ensures { (m : Memory) → model_of (lent_voices result nodes.new edges.new voices.new m) ≡ without_ids ids.now (model_of (lent_voices s nodes.old edges.old voices.old m)) }
{
    if ids.is_empty() {
        return s;
    }
    let left = remove_voices(nodes, s.nodes, edges, s.edges, s.sink, ids);
    let count = voice_rows::table::remove_voices(voices, s.voices, ids);
    let state = with_graph(s, left.nodes, left.edges, left.sink, s.next);
    with_voices(state, count)
}

// The voice `w` is removed. With `forget_voices` in its place each of its three callers would make a list of one number from its id.
pub fn forget_voice(
    s: State,
    nodes: &mut NodeTable,
    edges: &mut EdgeTable,
    voices: &mut VoiceTable,
    w: VoiceId,
) -> State
    ensures { (m : Memory) → model_of (lent_voices result nodes.new edges.new voices.new m) ≡ without_voice w (model_of (lent_voices s nodes.old edges.old voices.old m)) }
{
    forget_voices(s, nodes, edges, voices, &[w.0])
}
