// The definitions that a script keeps.
// The sorts are numbers: docs/REPLAY.md numbers the entries, and a recorded script holds the numbers.
ghost use Rattle.std.specs.Prelude.{◌<◌};

use codec::field::{after, byte_at};
use codec::output::{Output, text};
use piecrag::SynthDef;
use script::def::def_at;

pub(crate) type Slots = [SynthDef; 16];

// A slot that was never kept holds a definition without nodes, as docs/REPLAY.md says, and no `None`.
pub(crate) fn no_slots() -> Slots {
    [def_at(b"", 0).def; 16]
}

// Whether the entry at `at` keeps a definition.
pub(crate) fn is_kept(s: &[u8], at: usize) -> bool {
    byte_at(s, at) == 8
}

// The slot that the entry at `at` names.
fn place(s: &[u8], at: usize) -> usize
    ensures { result < 16 }
{
    usize::from(byte_at(s, after(at, 1))) % 16
}

// The definition of that slot. Of an entry that is no spawn it says nothing.
pub(crate) fn slot_at(s: &[u8], at: usize, slots: &Slots) -> SynthDef {
    slots[place(s, at)]
}

// Keeps the definition of the entry at `at`, behind the slot for it.
pub(crate) fn keep(out: &mut Output, s: &[u8], at: usize, slots: &mut Slots) {
    slots[place(s, at)] = def_at(s, after(at, 2)).def;
    text(out, b"kept\n");
}
