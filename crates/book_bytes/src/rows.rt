// The rows of a book, gathered in one walk. Rows above a table's capacity are counted and not kept.
ghost use Rattle.std.specs.Prelude.{◌≡◌, []};
ghost use Rattle.def_book.specs.Rows.{rows};
ghost use Rattle.def_book.specs.Read.{node_table, edge_table, param_table};
ghost use Rattle.def_book.specs.Body.{body_of};

use crate::field::{edge_at, is_edge, is_node, is_param, node_at, param_at};
use def_book::body::Body;
use lists::rows::Table;
use node::name::Name;
use synthdef::def::{DefEdge, DefEdges, DefNode, DefNodes, Param, Params};

const NO_NAME: Name = Name {
    bytes: [0; 16],
    len: 0,
};

#[tactic(auto, unfolding(def_book::specs::Held::held))]
pub(crate) fn no_nodes() -> DefNodes
    ensures { result ≡ node_table [] }
{
    Table::empty(DefNode {
        kind: NO_NAME,
        ports: 0,
        required: 0,
        takes_values: false,
        takes_glides: false,
        in_port: 0,
        level_port: 0,
        amp_port: 0,
    })
}

// Crates synthdef and page_scene write the edge of zeros out too: a constant for its three numbers would be no shorter.
#[tactic(auto, unfolding(def_book::specs::Held::held))]
pub(crate) fn no_edges() -> DefEdges
    ensures { result ≡ edge_table [] }
{
    Table::empty(DefEdge {
        from: 0,
        to: 0,
        port: 0,
    })
}

#[tactic(auto, unfolding(def_book::specs::Held::held))]
pub(crate) fn no_params() -> Params
    ensures { result ≡ param_table [] }
{
    Table::empty(Param {
        name: NO_NAME,
        node: 0,
    })
}

// The rows from the front of `s` on, up to where there is none. A while: how long a record is follows from its sort. The three
// branches are alike: one over a trait would be as long, and chosen by the same tests.
pub(crate) fn rows_of(s: &[u8]) -> Body
    ensures { result ≡ body_of (rows s.now) }
{
    let mut nodes = no_nodes();
    let mut edges = no_edges();
    let mut params = no_params();
    let mut at: usize = 0;
    while at < s.len() {
        let rest = &s[at..];
        if is_node(rest) {
            nodes.push(node_at(rest));
            at += 27;
        } else if is_edge(rest) {
            edges.push(edge_at(rest));
            at += 7;
        } else if is_param(rest) {
            params.push(param_at(rest));
            at += 22;
        } else {
            break;
        }
    }
    Body {
        nodes,
        edges,
        params,
        end: at,
    }
}
