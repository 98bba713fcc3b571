ghost use Rattle.def_book.specs.Counts.{CountsSaid, BlankRefused};

/// Of a book beyond the limits the reader says how many nodes and edges it has, and what stands for its definition is within no limits.
pub fn counts_said()
    ensures counts { CountsSaid }
    ensures refused { BlankRefused }
{}
