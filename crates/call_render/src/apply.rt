// One event. Freeing only removes voices, with their nodes and edges: so a freed voice is noted in a list, and all of them are removed
// together, once no event is left. Until then no event finds a noted voice, nor one of its nodes.
ghost use Rattle.std.specs.Prelude.{◌≡◌, take};
ghost use Rattle.model.specs.Render.{is_free};
ghost use Rattle.graph_rows.specs.Node.{nodes_in};
ghost use Rattle.voice_rows.specs.Rows.{voices_in};
ghost use Rattle.call_render.specs.Applying.{Spare, Noted, EventApplied};

use call_param::param::order_voice;
use edges::table::is_listed;
use graph_rows::node_row::NodeTable;
use lists::rows::Table;
use memory::state::State;
use node::order::EventAction;
use node::record::VoiceId;
use scheduler::event::{Event, param_order};
use store::answer::Outcome;
use voice_rows::row::VoiceTable;
use voice_rows::table::find_voice;

pub(crate) fn is_free(a: EventAction) -> bool
    ensures { result ≡ is_free a }
{
    matches!(a, EventAction::Free)
}

// The ids of the voices that are noted, of which a render has at most one for each of its 256 events: a table in fixed memory, since there is
// no heap for a list.
pub(crate) type Freed = Table<u64, 256>;

// The voice `w` is noted behind the others, if it is known and not noted yet.
fn note(voices: &[u32], held: usize, freed: &mut Freed, w: VoiceId) -> Outcome
    requires { Spare freed.old }
    ensures { Noted (take held (voices_in voices.now)) w freed.old freed.new result }
{
    if is_listed(freed.as_slice(), w.0) || find_voice(voices, held, w).is_none() {
        return Outcome::NoVoice;
    }
    freed.push(w.0);
    Outcome::Applied
}

// One event, and what became of it. A free notes its voice, any other is a value or a glide.
pub(crate) fn apply_event(
    s: State,
    nodes: &mut NodeTable,
    voices: &VoiceTable,
    e: Event,
    freed: &mut Freed,
) -> Outcome
    requires { Spare freed.old }
    ensures { EventApplied (take s.voices (voices_in voices.now)) e (take s.nodes (nodes_in nodes.old)) freed.old (take s.nodes (nodes_in nodes.new)) freed.new result }
{
    if is_free(e.action) {
        return note(voices, s.voices, freed, e.voice);
    }
    let p = param_order(e);
    order_voice(s, nodes, voices, freed.as_slice(), e.voice, p.name, p.order)
}
