// The sorts of numbers that a node takes as one number: a book's bytes and its text hold 1 for values and 2 for glides, added.
ghost use Rattle.std.specs.Prelude.{◌≡◌, ◌%◌, eqb, leb};
ghost use Rattle.def_book.specs.Bytes.{sorts_of};

pub fn sorts_of(values: bool, glides: bool) -> u8
    ensures { result ≡ sorts_of values glides }
{
    u8::from(values) + 2 * u8::from(glides)
}

// Whether values are among them, and whether glides are. Its readers refuse a number above 3.
pub fn takes_of(sorts: u8) -> (bool, bool)
    ensures { result ≡ (eqb (sorts % 2) 1, leb 2 sorts) }
{
    (sorts % 2 == 1, 2 <= sorts)
}
