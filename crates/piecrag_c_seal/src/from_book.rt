// Books that a host in C gives for definitions: a malformed one is refused by 18, but where the seal closes the call whatever it holds.
ghost use Rattle.std.specs.Prelude.{◌≡◌};
ghost use Rattle.words.specs.Fields.{is_set};
ghost use Rattle.def_book.specs.Read.{read_of, def_in};
ghost use Rattle.model.specs.Wish.{wish_for};
ghost use Rattle.piecrag_c_seal.specs.Book.{refuses_book};

use book_bytes::read::blank_def;
use call_seal::closing::shuts_spawn;
use def_book::answer::ReadError;
use node::record::NodeId;
use piecrag::Wish;
use sealed::profile::Seal;
use synthdef::def::SynthDef;

/// Whether the book of a spawn, or of a wish for it, is refused by 18.
pub fn refuses_book(x: Seal, managed: bool, bus: NodeId, read: &Result<SynthDef, ReadError>) -> bool
    ensures { result ≡ refuses_book x managed bus (read_of read.now) }
{
    !shuts_spawn(x, managed, bus, 0, 0) && matches!(read, Err(ReadError::Malformed(_)))
}

// The definition that goes on from a reading. Of a book beyond the limits it has the counts, which a seal tests before all else; the spawn
// itself refuses it by 9 where it tests for the limits, after other refusals.
fn definition_in(read: Result<SynthDef, ReadError>) -> SynthDef
    ensures { result ≡ def_in (read_of read) }
{
    match read {
        Ok(def) => def,
        Err(ReadError::Limits { nodes, edges }) => blank_def(nodes, edges),
        Err(ReadError::Malformed(_)) => blank_def(0, 0),
    }
}

// A spawn, or the wish for it, with the definition of its book. The numbers are the exports'.
pub(crate) fn wish_in(
    read: Result<SynthDef, ReadError>,
    managed: u32,
    bus: u32,
    pan: f32,
    rank: u32,
) -> Wish
    ensures { result ≡ wish_for (is_set managed) (record { 0 = bus }) pan rank (def_in (read_of read)) }
{
    Wish {
        managed: managed != 0,
        def: definition_in(read),
        bus: NodeId(bus),
        pan,
        rank,
    }
}
