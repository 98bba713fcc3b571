// The records of a book, each put at the start of a lent part of the buffer. Each asks for its room, and answers how much it took.
ghost use Rattle.std.specs.Prelude.{◌≡◌, List, ℕ, map, ◌+◌, ◌*◌, ◌++◌, ◌≤◌, length};
ghost use Rattle.node.specs.Name.{text};
ghost use Rattle.def_book.specs.Held.{held};
ghost use Rattle.def_book.specs.Bytes.{heading_bytes, node, edge, param, node_bytes, edge_bytes, param_bytes, joined};
ghost use Rattle.def_book.specs.Put.{Put};
ghost use Rattle.def_book.proofs.Restores.{row_long};

use crate::sorts::sorts_of;
use lists::byte::copy;
use node::name::Name;
use synthdef::def::{DefEdge, DefNode, Param};

// A row of a definition, whose record has so many bytes.
pub(crate) trait Record {
    ghost bytes: { Self → List ℕ };

    ghost size: { ℕ };

    ghost sized: { (x : Self) → length (bytes x) ≡ size };

    fn put(&self, out: &mut [u8]) -> usize
        requires { size ≤ length out.old }
        ensures { Put (bytes self.now) out.old out.new result };
}

// The 16 bytes of a name, with the unused ones at zero.
fn clean_bytes(n: Name) -> [u8; 16]
    ensures { result ≡ held 16 0 (text n) }
{
    let name = n.text();
    let mut bytes = [0u8; 16];
    bytes[..name.len()].copy_from_slice(name);
    bytes
}

// A record with a name in it: what stands before the bytes of the name, these, and what stands behind them.
fn put_named(head: &[u8], name: Name, behind: &[u8], out: &mut [u8]) -> usize
    requires { length head.now + 16 + length behind.now ≤ length out.old }
    ensures { Put ((head.now ++ held 16 0 (text name)) ++ behind.now) out.old out.new result }
{
    let bytes = clean_bytes(name);
    let a = copy(head, out);
    let b = a + copy(&bytes, &mut out[a..]);
    b + copy(behind, &mut out[b..])
}

pub(crate) fn put_heading(count: u8, output: u8, out: &mut [u8]) -> usize
    requires { 6 ≤ length out.old }
    ensures { Put (heading_bytes count output) out.old out.new result }
{
    let r = [6, 0, 1, 0, count, output];
    copy(&r, out)
}

impl Record for DefNode {
    ghost bytes = { node_bytes };

    ghost size = { 27 };

    ghost sized = { λ x. row_long (node x) };

    fn put(&self, out: &mut [u8]) -> usize {
        let head = [27, 0, 2, 0, self.kind.len];
        let behind = [
            self.ports,
            self.required,
            sorts_of(self.takes_values, self.takes_glides),
            self.in_port,
            self.level_port,
            self.amp_port,
        ];
        put_named(&head, self.kind, &behind, out)
    }
}

impl Record for DefEdge {
    ghost bytes = { edge_bytes };

    ghost size = { 7 };

    ghost sized = { λ x. row_long (edge x) };

    fn put(&self, out: &mut [u8]) -> usize {
        let r = [7, 0, 3, 0, self.from, self.to, self.port];
        copy(&r, out)
    }
}

impl Record for Param {
    ghost bytes = { param_bytes };

    ghost size = { 22 };

    ghost sized = { λ x. row_long (param x) };

    fn put(&self, out: &mut [u8]) -> usize {
        let head = [22, 0, 4, 0, self.name.len];
        let behind = [self.node];
        put_named(&head, self.name, &behind, out)
    }
}

// The records of a table's rows, one after the other.
pub(crate) fn put_rows<T: Record>(rows: &[T], out: &mut [u8]) -> usize
    requires { T.size * length rows.now ≤ length out.old }
    ensures { Put (joined (map T.bytes rows.now)) out.old out.new result }
{
    let mut at: usize = 0;
    for row in rows {
        at += row.put(&mut out[at..]);
    }
    at
}
