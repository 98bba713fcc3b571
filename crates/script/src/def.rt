// Definitions.
ghost use Rattle.std.specs.Prelude.{◌≡◌, List, ℕ};
ghost use Rattle.lists.specs.Table.{rows_of};
ghost use Rattle.script.specs.Def.{node_at, node_end, edge_at, edge_end, param_at, param_end, TableAt, DefAt, def_end};

use crate::host::takes_at;
use crate::name::{name_at, name_end};
use codec::field::{after, byte_at};
use lists::rows::Table;
use node::name::name_of;
use synthdef::def::{DefEdge, DefNode, Param, SynthDef};

// A table, and the position after its rows. A count above the table's capacity is kept; its rows are read and left out.
// The rows behind those that are read are what an empty input gives: a name has no default.
#[derive(Clone, Copy)]
struct ReadRows<T: Copy, const N: usize> {
    rows: Table<T, N>,
    end: usize,
}

// A definition, and the position after it. No generic pair with `ReadRows`, whose fields would need names that say less.
#[derive(Clone, Copy)]
pub struct ReadDef {
    pub def: SynthDef,
    pub end: usize,
}

// A row of a table: how it is read, and the position after it.
trait Row: Copy {
    ghost read: { List ℕ → ℕ → Self };

    ghost next: { List ℕ → ℕ → ℕ };

    fn read_at(s: &[u8], at: usize) -> Self
        ensures { result ≡ read s.now at };

    fn end_at(s: &[u8], at: usize) -> usize
        ensures { result ≡ next s.now at };
}

// A kind name, ports, required ports, what the node takes, its channels, which are the generator's, and its ports by name.
impl Row for DefNode {
    ghost read = { node_at };

    ghost next = { node_end };

    fn read_at(s: &[u8], at: usize) -> DefNode {
        let rest = name_end(s, at);
        let (takes_values, takes_glides) = takes_at(s, after(rest, 2));
        DefNode {
            kind: name_of(name_at(s, at)),
            ports: byte_at(s, rest),
            required: byte_at(s, after(rest, 1)),
            takes_values,
            takes_glides,
            in_port: byte_at(s, after(rest, 4)),
            level_port: byte_at(s, after(rest, 5)),
            amp_port: byte_at(s, after(rest, 6)),
        }
    }

    fn end_at(s: &[u8], at: usize) -> usize {
        after(name_end(s, at), 7)
    }
}

impl Row for DefEdge {
    ghost read = { edge_at };

    ghost next = { edge_end };

    fn read_at(s: &[u8], at: usize) -> DefEdge {
        DefEdge {
            from: byte_at(s, at),
            to: byte_at(s, after(at, 1)),
            port: byte_at(s, after(at, 2)),
        }
    }

    fn end_at(_: &[u8], at: usize) -> usize {
        after(at, 3)
    }
}

impl Row for Param {
    ghost read = { param_at };

    ghost next = { param_end };

    fn read_at(s: &[u8], at: usize) -> Param {
        Param {
            name: name_of(name_at(s, at)),
            node: byte_at(s, name_end(s, at)),
        }
    }

    fn end_at(s: &[u8], at: usize) -> usize {
        after(name_end(s, at), 1)
    }
}

// How many rows, and the rows. What the table has no room for is read over too.
fn read_rows<T: Row, const N: usize>(s: &[u8], at: usize) -> ReadRows<T, N>
    ensures { TableAt N T.read T.next s.now at (rows_of N result.rows.count result.rows.rows) result.rows.count result.end }
{
    let mut rows = Table::empty(T::read_at(b"", 0));
    let mut from = after(at, 1);
    for _ in 0..byte_at(s, at) {
        rows.push(T::read_at(s, from));
        from = T::end_at(s, from);
    }
    ReadRows { rows, end: from }
}

// The nodes, the edges, the parameters and the output.
pub fn def_at(s: &[u8], at: usize) -> ReadDef
    ensures def { DefAt s.now at result.def }
    ensures end { result.end ≡ def_end s.now at }
{
    let nodes = read_rows(s, at);
    let edges = read_rows(s, nodes.end);
    let params = read_rows(s, edges.end);
    ReadDef {
        def: SynthDef {
            nodes: nodes.rows,
            edges: edges.rows,
            params: params.rows,
            output: byte_at(s, params.end),
        },
        end: after(params.end, 1),
    }
}
