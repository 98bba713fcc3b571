// Each lent table and its count are parameters of their own: a signature shows what a call may touch.
ghost use Rattle.std.specs.Prelude.{◌≡◌, take};
ghost use Rattle.graph.specs.Node.{node_at, noise_of, next_noise, noise_raised};
ghost use Rattle.graph_rows.specs.Node.{nodes_in};

use crate::lookup::row_of;
use graph_rows::node_row::{NodeTable, id_at, noise_at};
use node::record::NodeId;
use words::table::change_rows;

// The noise sequence of a bus, which is the number that its next voice gets; 0 and no option where it does not live, as the definition in the clause
// gives it: a spawn asks once it has found the bus.
pub fn noise_of(nodes: &NodeTable, count: usize, bus: NodeId) -> u32
    ensures { result ≡ noise_of (node_at (take count (nodes_in nodes.now)) bus) }
{
    row_of(nodes, count, bus).map_or(0, |i| noise_at(nodes, i))
}

// The sequence wraps after 2^32 - 1.
fn next_noise(k: u32) -> u32
    ensures { result ≡ next_noise k }
{
    k.wrapping_add(1)
}

// The bus counts one voice more. The ids of a store that calls made are all different; any words are a store, so several rows may
// have the bus's id here, and each of them counts. The sequence is word 21 of a row,
// as `put_noise` of graph_rows has it, which stores one row.
pub fn raise_noise(nodes: &mut NodeTable, count: usize, bus: NodeId)
    ensures { take count (nodes_in nodes.new) ≡ noise_raised bus (take count (nodes_in nodes.old)) }
{
    change_rows(nodes, 22, count, 21, |t, i| {
        (id_at(t, i) == bus).then_some([next_noise(noise_at(t, i))])
    });
}
