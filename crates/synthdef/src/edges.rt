ghost use Rattle.std.specs.Prelude.{◌≡◌};
ghost use Rattle.synthdef.specs.Tables.{edge_rows, edge_table};
ghost use Rattle.synthdef.specs.Edges.{counted, taken, ends_at};

use crate::def::{DefEdge, DefEdges};
use lists::rows::Table;

// Whether `e` ends at the port `port` of the node `node`.
pub fn ends_at(e: DefEdge, node: usize, port: usize) -> bool
    ensures { result ≡ ends_at node port e }
{
    usize::from(e.to) == node && usize::from(e.port) == port
}

// Whether one of the edges ends at the port at which `e` ends.
fn taken(e: DefEdge, es: &[DefEdge]) -> bool
    ensures { result ≡ taken e es.now }
{
    es.iter()
        .any(|x| ends_at(*x, usize::from(e.to), usize::from(e.port)))
}

// The edges that count, the last to each port, in the order of their last occurrence. Crates book_bytes and page_scene write the edge of zeros out too: a
// constant for its three numbers would be no shorter.
pub fn counted_edges(es: DefEdges) -> DefEdges
    ensures { result ≡ edge_table (counted (edge_rows es)) }
{
    let mut out = Table::empty(DefEdge {
        from: 0,
        to: 0,
        port: 0,
    });
    let edges = es.as_slice();
    for (i, e) in edges.iter().enumerate() {
        if !taken(*e, &edges[i + 1..]) {
            out.push(*e);
        }
    }
    out
}
