// A console is made.
ghost use Rattle.console.specs.Console.{make_console};
ghost use Rattle.state_words.specs.State.{budget_in};
ghost use Rattle.c_answer.specs.Argument.{making_in};
ghost use Rattle.c_answer.specs.Console.{MakesConsole};

use c_answer::answer::{result_code, settle};
use c_answer::argument::making_in;
use c_answer::keyboards::settle_waiting;
use state_words::StateWords;
use wish_state_words::WaitingWords;

// A new console, whatever stands in the words of its tables. For C its arguments are single numbers.
#[unsafe(no_mangle)]
pub extern "C" fn piecrag_make_console(
    state: &mut StateWords,
    waiting: &mut WaitingWords,
    rate: f32,
    block: usize,
    limited: u32,
    budget: usize,
    policy: u32,
    scope: u32,
    table: u32,
    keyboards: usize,
) -> u32
    ensures { MakesConsole (make_console (making_in rate block (budget_in limited budget) policy scope table) keyboards) state.old waiting.old result state.new waiting.new }
{
    let asked = making_in(rate, block, limited, budget, policy, scope, table);
    let made = piecrag::make_console(asked, keyboards);
    let kept = made.answer.is_err();
    settle_waiting(waiting, made.wishes, kept);
    settle(state, made.state, kept, result_code(made.answer))
}
