ghost use Rattle.std.specs.Prelude.{◌≡◌};
ghost use Rattle.def_book.specs.Read.{read_number, read_of};
ghost use Rattle.def_book.specs.Write.{wrote_number, wrote_of};

use synthdef::def::SynthDef;

/// Why a book gives no definition: what stands at this position in the book is malformed, or what it holds is not within the limits of a
/// definition. Of that it is told how many nodes and edges there are, as given: a seal asks for no more.
#[derive(Clone, Copy)]
pub enum ReadError {
    Malformed(usize),
    Limits { nodes: usize, edges: usize },
}

// Why a definition is not written: it is not within the limits, or the buffer is too short. The numbers are those of the refusals, since a
// host in C holds no enum.
#[derive(Clone, Copy)]
pub enum WriteError {
    Limits = 9,
    ShortBuffer = 19,
}

// The number of a reading's refusal, 0 where there is none. By cases, and not beside them as in `WriteError`: one of them holds a position.
pub fn read_number(read: &Result<SynthDef, ReadError>) -> u8
    ensures { result ≡ read_number (read_of read.now) }
{
    match read {
        Ok(_) => 0,
        Err(ReadError::Malformed(_)) => 18,
        Err(ReadError::Limits { .. }) => 9,
    }
}

// The number of a writing's refusal, 0 where there is none. What is written is the book's length.
pub fn write_number(written: Result<usize, WriteError>) -> u8
    ensures { result ≡ wrote_number (wrote_of written) }
{
    match written {
        Ok(_) => 0,
        Err(why) => why as u8,
    }
}
