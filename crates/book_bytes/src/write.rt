// Writing a book.
ghost use Rattle.std.specs.Prelude.{◌≡◌, ◌+◌, ◌*◌, ◌≤◌, min, length};
ghost use Rattle.def_book.specs.Bytes.{book_of};
ghost use Rattle.def_book.specs.Put.{Put};
ghost use Rattle.def_book.specs.Write.{wrote_of, write_answer, write_book, book_length};

use crate::put::{put_heading, put_rows};
use def_book::answer::WriteError;
use synthdef::def::SynthDef;
use synthdef::limits::allowed;

// The bytes that the book of a definition takes.
fn book_length(nodes: usize, edges: usize, params: usize) -> usize
    ensures { result ≡ book_length nodes edges params }
{
    6 + 27 * nodes.min(24) + 7 * edges.min(48) + 22 * params.min(8)
}

// The heading, the nodes, the edges, the parameters.
fn put_book(d: SynthDef, out: &mut [u8]) -> usize
    requires { book_length d.nodes.count d.edges.count d.params.count ≤ length out.old }
    ensures { Put (book_of d) out.old out.new result }
{
    let nodes = d.nodes.as_slice();
    let a = put_heading(nodes.len() as u8, d.output, out);
    let b = a + put_rows(nodes, &mut out[a..]);
    let c = b + put_rows(d.edges.as_slice(), &mut out[b..]);
    c + put_rows(d.params.as_slice(), &mut out[c..])
}

// The book of `d` at the start of `out`, and its length; or that `d` is not within the limits, or that `out` is too short, and then `out`
// stays as it is.
pub fn write_book(d: SynthDef, out: &mut [u8]) -> Result<usize, WriteError>
    ensures is { wrote_of result ≡ write_answer d out.old }
    ensures leaves { out.new ≡ write_book d out.old }
{
    if !allowed(d) {
        return Err(WriteError::Limits);
    }
    if out.len() < book_length(d.nodes.count, d.edges.count, d.params.count) {
        return Err(WriteError::ShortBuffer);
    }
    Ok(put_book(d, out))
}
