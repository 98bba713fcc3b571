//! Why a console or a board is not made.
ghost use Rattle.std.specs.Prelude.{◌≡◌};
ghost use Rattle.board.specs.Made.{in_range};
ghost use Rattle.board.specs.declared.making.MakeRefusal.TheVariants as refusal;

use console::refusal::KeyboardRefusal;
use node::refusal::Refusal;

/// One of the store's refusals, or that there are not from 1 to 8 keyboards, or more than there is memory for.
#[derive(Clone, Copy)]
pub enum MakeRefusal {
    Store(Refusal),
    Keyboards(KeyboardRefusal),
}

impl From<Refusal> for MakeRefusal {
    ghost from_gives = { λ why e. e ≡ refusal.Store why };

    fn from(why: Refusal) -> MakeRefusal {
        MakeRefusal::Store(why)
    }
}

/// Whether there are from 1 to 8 keyboards, and memory for them.
pub(crate) fn is_in_range(memory: usize, keyboards: usize) -> bool
    ensures { result ≡ in_range memory keyboards }
{
    (1..=8).contains(&keyboards) && keyboards <= memory
}
