// Answers as numbers and cells, and when the state is written back. Numbers, since a host in C has no enums.
ghost use Rattle.std.specs.Prelude.{◌≡◌};
ghost use Rattle.std.specs.Option.{unwrap_or};
ghost use Rattle.model.specs.Numbers.{number, render_says};
ghost use Rattle.memory.specs.Called.{keeps};
ghost use Rattle.state_words.specs.State.{some_flag};
ghost use Rattle.c_answer.specs.Refused.{number_by, kept_by};
ghost use Rattle.c_answer.specs.Exported.{render_code, sound_cell, taken_cell, Settled};

use crate::refusal::Numbered;
use memory::state::{CallResult, State};
use state_words::{StateWords, put_state};
use store::answer::Rendered;

pub fn number_of<R: Numbered>(r: R) -> u32
    ensures { result ≡ R.number r }
{
    u32::from(r.number())
}

// The number of an answer that may be a refusal: 0 where it is none.
pub fn result_code<A: Copy, R: Numbered>(a: Result<A, R>) -> u32
    ensures { result ≡ number_by R.number a }
{
    a.map_or_else(number_of, |_| 0)
}

// Whether a call that answers so keeps every word.
pub fn result_kept<A: Copy, R: Numbered>(a: Result<A, R>) -> bool
    ensures { result ≡ kept_by R.kept a }
{
    a.is_err_and(|r| r.is_kept())
}

// A render by its cases: C gets a number and two cells of it, and a cell keeps its value where the render is refused.
pub fn render_code(a: Rendered) -> u32
    ensures { result ≡ render_code a }
{
    match a {
        Rendered::Sounding | Rendered::Silent => 0,
        Rendered::Unprepared(r) | Rendered::Refused(r) => number_of(r),
    }
}

pub fn render_kept(a: Rendered) -> bool
    ensures { result ≡ keeps (number (render_says a)) }
{
    match a {
        Rendered::Refused(r) => r.is_kept(),
        _ => false,
    }
}

pub fn sound_cell(a: Rendered, old: u32) -> u32
    ensures { result ≡ sound_cell a old }
{
    match a {
        Rendered::Sounding => 1,
        Rendered::Silent | Rendered::Unprepared(_) => 0,
        Rendered::Refused(_) => old,
    }
}

pub fn taken_cell(a: Rendered, n: usize, old: usize) -> usize
    ensures { result ≡ taken_cell a n old }
{
    match a {
        Rendered::Refused(_) => old,
        _ => n,
    }
}

// A value that was found goes into the cell, and the flag beside it becomes 1, or 0 where there is none, since C has no option.
pub fn put_cell<T: Copy>(flag: &mut u32, cell: &mut T, found: Option<T>)
    ensures flag { flag.new ≡ some_flag found }
    ensures cell { cell.new ≡ unwrap_or found cell.old }
{
    *flag = u32::from(found.is_some());
    *cell = found.unwrap_or(*cell);
}

// The state s is written to the words, unless they are kept; the answer is the number.
// `kept` is a value and no step to run: a render and a turn answer by enums and options, of which each has a test of its own.
// `settle_waiting` and `settle_seal` are this `if` for other words: one function would take what writes as a closure, as long as the `if`.
pub fn settle(w: &mut StateWords, s: State, kept: bool, k: u32) -> u32
    ensures { Settled w.old s kept k result w.new }
{
    if !kept {
        put_state(w, s);
    }
    k
}

// The same of a call that answers by a result. Always inlined: as a function of its own it copies the state once more, 92 instructions a making (measured).
#[inline(always)]
pub fn settle_result<A: Copy, R: Numbered>(w: &mut StateWords, r: CallResult<Result<A, R>>) -> u32
    ensures { Settled w.old r.state (kept_by R.kept r.answer) (number_by R.number r.answer) result w.new }
{
    settle(w, r.state, result_kept(r.answer), result_code(r.answer))
}
