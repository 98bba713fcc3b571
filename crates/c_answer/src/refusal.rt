// What a host in C is told of a refusal, whoever refused: its number, since C has no enums, and whether its words are left as they are.
ghost use Rattle.std.specs.Prelude.{◌≡◌, ℕ, Bool, Some, true};
ghost use Rattle.node.specs.Refusal.{number_of};
ghost use Rattle.console.specs.Refusal as keyboard;
ghost use Rattle.sealed.specs.Refusal as seal;
ghost use Rattle.memory.specs.Called.{keeps};
ghost use Rattle.c_answer.specs.Refused.{made_number, board_number, board_kept};

use call_console::making::MakeRefusal;
use call_seal::closing::BoardRefusal;
use console::refusal::{KeyboardRefusal, keyboard_refusal_number};
use node::refusal::{Refusal, refusal_number};
use sealed::refusal::{SealRefusal, seal_refusal_number};

// The trait and its impls stand here, above the crates of the refusals: those are for programs in Rattle too. Crate transcript has such a trait of
// its own: what plays the scripts is kept apart from the library that it is compared with.
pub trait Numbered: Copy {
    ghost number: { Self → ℕ };

    ghost kept: { Self → Bool };

    fn number(self) -> u8
        ensures { result ≡ number self };

    // Whether a call that is refused so keeps every word.
    fn is_kept(self) -> bool
        ensures { result ≡ kept self };
}

impl Numbered for Refusal {
    ghost number = { number_of };

    ghost kept = { λ r. keeps (Some (number_of r)) };

    fn number(self) -> u8 {
        refusal_number(self)
    }

    // All but the one for want of a port do.
    fn is_kept(self) -> bool {
        !matches!(self, Refusal::NoPort)
    }
}

impl Numbered for KeyboardRefusal {
    ghost number = { keyboard.number_of };

    ghost kept = { λ r. true };

    fn number(self) -> u8 {
        keyboard_refusal_number(self)
    }

    fn is_kept(self) -> bool {
        true
    }
}

impl Numbered for SealRefusal {
    ghost number = { seal.number_of };

    ghost kept = { λ r. true };

    fn number(self) -> u8 {
        seal_refusal_number(self)
    }

    fn is_kept(self) -> bool {
        true
    }
}

impl Numbered for MakeRefusal {
    ghost number = { made_number };

    ghost kept = { λ r. true };

    fn number(self) -> u8 {
        match self {
            MakeRefusal::Store(r) => r.number(),
            MakeRefusal::Keyboards(r) => r.number(),
        }
    }

    fn is_kept(self) -> bool {
        true
    }
}

impl<R: Numbered> Numbered for BoardRefusal<R> {
    ghost number = { board_number R.number };

    ghost kept = { board_kept R.kept };

    fn number(self) -> u8 {
        match self {
            BoardRefusal::Closed => SealRefusal::Closed.number(),
            BoardRefusal::Given(r) => r.number(),
        }
    }

    fn is_kept(self) -> bool {
        match self {
            BoardRefusal::Closed => true,
            BoardRefusal::Given(r) => r.is_kept(),
        }
    }
}
