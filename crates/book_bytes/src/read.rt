// Reading a book.
ghost use Rattle.std.specs.Prelude.{◌≡◌};
ghost use Rattle.def_book.specs.Read.{blank_def, read_book, read_of};

use crate::field::{byte_at, is_heading};
use crate::rows::{no_edges, no_nodes, no_params, rows_of};
use def_book::answer::ReadError;
use synthdef::def::{DefEdges, DefNodes, SynthDef};
use synthdef::limits::allowed;

/// The definition of so many nodes and edges, each of them blank: within no limits.
pub fn blank_def(nodes: usize, edges: usize) -> SynthDef
    ensures { result ≡ blank_def nodes edges }
{
    SynthDef {
        nodes: DefNodes {
            count: nodes,
            ..no_nodes()
        },
        edges: DefEdges {
            count: edges,
            ..no_edges()
        },
        params: no_params(),
        output: 0,
    }
}

/// The definition that the book `s` holds; or where it is malformed, or that it is not within the limits, with its counts.
pub fn read_book(s: &[u8]) -> Result<SynthDef, ReadError>
    ensures { read_of result ≡ read_book s.now }
{
    if !is_heading(s) {
        return Err(ReadError::Malformed(0));
    }
    let n = s.len();
    let b = rows_of(&s[6..]);
    if b.end != n - 6 {
        return Err(ReadError::Malformed(6 + b.end));
    }
    if b.nodes.count != usize::from(byte_at(s, 4)) {
        return Err(ReadError::Malformed(n));
    }
    let def = SynthDef {
        nodes: b.nodes,
        edges: b.edges,
        params: b.params,
        output: byte_at(s, 5),
    };
    if !allowed(def) {
        return Err(ReadError::Limits {
            nodes: def.nodes.count,
            edges: def.edges.count,
        });
    }
    Ok(def)
}
