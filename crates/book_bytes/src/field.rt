// The records of a book, each looked at from its first byte on. Every test and every field is there for any bytes: one past the end is 0, and no
// Option, since fields are read where a test has found the record whole, and the tests take a byte past the end for 0.
ghost use Rattle.std.specs.Prelude.{◌≡◌, ◌+◌, drop, get_or};
ghost use Rattle.synthdef.specs.Rows.{every};
ghost use Rattle.def_book.specs.Rows.{pair_at, is_record, is_zero, name_at, name_fits, is_heading, is_node, is_edge, is_param, node_at, edge_at, param_at};

use crate::sorts::takes_of;
use node::name::{Name, is_named};
use std::array;
use synthdef::def::{DefEdge, DefNode, Param};

// Crate codec has `byte_at` and `pair_at` too, and crate words a word that is 0 past the end: what is compared shares no reader with the library.

// The byte at `i`, 0 past the end.
pub(crate) fn byte_at(s: &[u8], i: usize) -> u8
    ensures { result ≡ get_or s.now i 0 }
{
    s.get(i).copied().unwrap_or(0)
}

// The two bytes at `i` as one number, the lower first. By hand, as the definition adds them: `from_le_bytes` of the two, made a usize, says no more.
fn pair_at(s: &[u8], i: u8) -> usize
    ensures { result ≡ pair_at s.now i }
{
    let at = usize::from(i);
    usize::from(byte_at(s, at)) + 256 * usize::from(byte_at(s, at + 1))
}

// Whether a record of this kind and size stands here, whole. Its kind is a number, as the bytes hold it.
fn is_record(s: &[u8], kind: usize, size: usize) -> bool
    ensures { result ≡ is_record kind size s.now }
{
    pair_at(s, 0) == size && pair_at(s, 2) == kind && size <= s.len()
}

// By the place, and no copy of a slice, which would have to be as long: a byte past the end is 0.
fn name_at(s: &[u8]) -> Name
    ensures { result ≡ name_at s.now }
{
    Name {
        bytes: array::from_fn(|i| byte_at(s, 5 + i)),
        len: byte_at(s, 4),
    }
}

// Whether the bytes past a name's length are zero.
fn is_clear(n: Name) -> bool
    ensures { result ≡ every is_zero (drop n.len n.bytes) }
{
    n.bytes.iter().skip(usize::from(n.len)).all(|b| *b == 0)
}

fn name_fits(n: Name) -> bool
    ensures { result ≡ name_fits n }
{
    is_named(n) && is_clear(n)
}

// The four sorts of record. A heading's and an edge's have a name too, since a call with two numbers says less.
pub(crate) fn is_heading(s: &[u8]) -> bool
    ensures { result ≡ is_heading s.now }
{
    is_record(s, 1, 6)
}

pub(crate) fn is_node(s: &[u8]) -> bool
    ensures { result ≡ is_node s.now }
{
    is_record(s, 2, 27) && name_fits(name_at(s)) && byte_at(s, 23) <= 3
}

pub(crate) fn is_edge(s: &[u8]) -> bool
    ensures { result ≡ is_edge s.now }
{
    is_record(s, 3, 7)
}

pub(crate) fn is_param(s: &[u8]) -> bool
    ensures { result ≡ is_param s.now }
{
    is_record(s, 4, 22) && name_fits(name_at(s))
}

pub(crate) fn node_at(s: &[u8]) -> DefNode
    ensures { result ≡ node_at s.now }
{
    let (takes_values, takes_glides) = takes_of(byte_at(s, 23));
    DefNode {
        kind: name_at(s),
        ports: byte_at(s, 21),
        required: byte_at(s, 22),
        takes_values,
        takes_glides,
        in_port: byte_at(s, 24),
        level_port: byte_at(s, 25),
        amp_port: byte_at(s, 26),
    }
}

pub(crate) fn edge_at(s: &[u8]) -> DefEdge
    ensures { result ≡ edge_at s.now }
{
    DefEdge {
        from: byte_at(s, 4),
        to: byte_at(s, 5),
        port: byte_at(s, 6),
    }
}

pub(crate) fn param_at(s: &[u8]) -> Param
    ensures { result ≡ param_at s.now }
{
    Param {
        name: name_at(s),
        node: byte_at(s, 21),
    }
}
