ghost use Rattle.model.specs.Call.{prepare};
ghost use Rattle.memory.specs.View.{Memory};
ghost use Rattle.memory.specs.Lent.{lent_order};
ghost use Rattle.memory.specs.Called.{Called, Kept, answered};

use graph_rows::edge_row::EdgeTable;
use graph_rows::node_row::NodeTable;
use memory::parts::with_order;
use memory::state::{CallResult, State, refuse};
use node::refusal::Refusal;
use order_table::OrderTable;

// The graph is made ready to be rendered. A `match` and no `?`, since the state goes with every answer.
// The same `match` as in `schedule`: a function for both would take `with_order` or `with_events` as a closure.
pub fn prepare(
    s: State,
    nodes: &NodeTable,
    edges: &EdgeTable,
    order: &mut OrderTable,
) -> CallResult<Result<(), Refusal>>
    ensures is { (m : Memory) → Called prepare (lent_order s nodes.now edges.now order.old m) (answered result.answer) (lent_order result.state nodes.now edges.now order.new m) }
    ensures same { (m : Memory) → Kept (answered result.answer) (lent_order s nodes.now edges.now order.old m) (lent_order result.state nodes.now edges.now order.new m) }
{
    match order_table::prepare(nodes, s.nodes, edges, s.edges, order) {
        Err(why) => refuse(s, why),
        Ok(count) => CallResult {
            state: with_order(s, count),
            answer: Ok(()),
        },
    }
}
