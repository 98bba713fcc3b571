ghost use Rattle.std.specs.Prelude.{◌≡◌, List, ℕ};
ghost use Rattle.console.specs.Console.{make_console};
ghost use Rattle.memory.specs.View.{Memory};
ghost use Rattle.memory.specs.Lent.{lent_state};
ghost use Rattle.call_console.specs.declared.making.MakeRefusal.TheVariants.{Store};
ghost use Rattle.call_console.specs.Called.{memory, console_of, made_of, Judged};

use crate::queues::{ConsoleResult, new_wishes};
use call_make::make;
use console::refusal::KeyboardRefusal;
use node::refusal::Refusal;
use store::config::Making;

// Why a console is not made: one of the store's refusals, or that there is no keyboard or more than 8.
#[derive(Clone, Copy)]
pub enum MakeRefusal {
    Store(Refusal),
    Keyboards(KeyboardRefusal),
}

impl From<Refusal> for MakeRefusal {
    ghost from_gives = { λ why e. e ≡ Store why };

    fn from(why: Refusal) -> MakeRefusal {
        MakeRefusal::Store(why)
    }
}

// The store's answer first; then whether there are from 1 to 8 keyboards.
fn judge(made: Result<(), Refusal>, keyboards: usize) -> Result<(), MakeRefusal>
    ensures { Judged made keyboards result }
{
    made?;
    if !(1..=8).contains(&keyboards) {
        return Err(MakeRefusal::Keyboards(KeyboardRefusal::OutOfRange));
    }
    Ok(())
}

// A new console: a new store, as `call_make::make` makes it, and so many keyboards at which nothing waits. Where it is refused, the
// state and the wishes are of the arguments as they are.
pub fn make_console(making: Making, keyboards: usize) -> ConsoleResult<Result<(), MakeRefusal>>
    ensures { (m : Memory) (c : List ℕ) → made_of result.answer (console_of (memory (lent_state result.state m) result.wishes c)) ≡ make_console making keyboards }
{
    let made = make(making);
    ConsoleResult {
        state: made.state,
        wishes: new_wishes(keyboards),
        answer: judge(made.answer, keyboards),
    }
}
