ghost use Rattle.std.specs.Prelude.{◌≡◌, false, take};
ghost use Rattle.node.specs.declared.order.LastOrder.TheVariants as last;
ghost use Rattle.model.specs.Order.{is_yes};
ghost use Rattle.model.specs.Call.{ordered};
ghost use Rattle.model.specs.Call as call;
ghost use Rattle.graph_rows.specs.Node.{nodes_in};
ghost use Rattle.voice_rows.specs.Rows.{voices_in};
ghost use Rattle.memory.specs.View.{Memory};
ghost use Rattle.memory.specs.Lent.{lent_params};
ghost use Rattle.memory.specs.Called.{Called};
ghost use Rattle.call_param.specs.Left.{order_left};
ghost use Rattle.call_param.specs.Replies.{Replies};

use crate::apply::order_node;
use crate::named::param_named;
use edges::table::is_listed;
use graph_rows::node_row::NodeTable;
use memory::state::State;
use node::name::{Name, name_of};
use node::order::{Glide, LastOrder};
use node::record::VoiceId;
use store::answer::Outcome;
use voice_rows::row::{VoiceTable, first_at};
use voice_rows::table::find_voice;

// An order for the parameter `name` of the voice `w`, while the voices `freed` wait to be removed: none of them is known any more,
// and none of their nodes lives. With nobody freed it is the order that a call gives.
// No `?`: an `Outcome` is no result, since model and ledger have its four cases by their names.
pub fn order_voice(
    s: State,
    nodes: &mut NodeTable,
    voices: &VoiceTable,
    freed: &[u64],
    w: VoiceId,
    name: Name,
    o: LastOrder,
) -> Outcome
    ensures { Replies nodes.old nodes.new s.nodes result (order_left freed.now w name o (take s.voices (voices_in voices.now)) (take s.nodes (nodes_in nodes.old))) }
{
    if is_listed(freed, w.0) {
        return Outcome::NoVoice;
    }
    let Some(row) = find_voice(voices, s.voices, w) else {
        return Outcome::NoVoice;
    };
    let Some(i) = param_named(voices, row, name) else {
        return Outcome::NoParameter;
    };
    let id = u64::from(first_at(voices, row).0) + u64::from(i);
    order_node(nodes, s.nodes, id, freed, o)
}

// An order for the parameter `name` of the voice `voice`, where no voice waits to be removed. Here and below the parameters are the calls'
// own: what is ordered goes on as one `LastOrder`, and a type of it with voice and name would be taken apart in each clause.
fn set_order(
    s: State,
    nodes: &mut NodeTable,
    voices: &VoiceTable,
    voice: VoiceId,
    name: &[u8],
    o: LastOrder,
) -> Outcome
    ensures is { (m : Memory) → Called (call.order voice name.now o) (lent_params s nodes.old voices.now m) (ordered result) (lent_params s nodes.new voices.now m) }
    ensures same { is_yes result ≡ false → nodes.new ≡ nodes.old }
{
    order_voice(s, nodes, voices, &[], voice, name_of(name), o)
}

// A value for the parameter `name` of the voice `voice`. This and the next are the two calls that the scope names, one line each.
pub fn set_voice_param(
    s: State,
    nodes: &mut NodeTable,
    voices: &VoiceTable,
    voice: VoiceId,
    name: &[u8],
    value: f32,
) -> Outcome
    ensures is { (m : Memory) → Called (call.order voice name.now (last.Value value)) (lent_params s nodes.old voices.now m) (ordered result) (lent_params s nodes.new voices.now m) }
    ensures same { is_yes result ≡ false → nodes.new ≡ nodes.old }
{
    set_order(s, nodes, voices, voice, name, LastOrder::Value(value))
}

// A glide for the parameter `name` of the voice `voice`.
pub fn set_voice_param_glide(
    s: State,
    nodes: &mut NodeTable,
    voices: &VoiceTable,
    voice: VoiceId,
    name: &[u8],
    glide: Glide,
) -> Outcome
    ensures is { (m : Memory) → Called (call.order voice name.now (last.Glide glide)) (lent_params s nodes.old voices.now m) (ordered result) (lent_params s nodes.new voices.now m) }
    ensures same { is_yes result ≡ false → nodes.new ≡ nodes.old }
{
    set_order(s, nodes, voices, voice, name, LastOrder::Glide(glide))
}
