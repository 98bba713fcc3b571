// Makings, and the console's calls: wishes, turns, and what waits.
// Each lent table is a parameter of its own, a rule of the project: a signature shows what a function may touch.
// The sorts are numbers: docs/REPLAY.md numbers the entries, and a recorded script holds the numbers.
use codec::field::{after, byte_at, float, word_at};
use codec::output::{Output, end_line, text};
use codec::word::and_word;
use piecrag::{
    EdgeTable, Making, NodeTable, Queue, Seal, State, StealTable, SynthDef, VoiceTable, Wish,
    WishState, WishTable, board_wish, keyboard_count, make, make_console, turn, waiting_count,
};
use script::config::{budget_of, policy_of, scope_of};
use script::host::id_at;
use script::name::name_at;
use transcript::answer::{Numbered, answer_line, given_line, remark_line};

// The script's store, with the wishes that wait for it and its seal.
#[derive(Clone, Copy)]
pub struct Board {
    pub state: State,
    pub wishes: WishState,
    pub seal: Seal,
}

// A store that was made without keyboards: a wish is refused, and a turn is empty. As a host writes it: the function of call_console for this is
// that crate's own.
pub fn no_keyboards() -> WishState {
    WishState {
        keyboards: 0,
        next: 0,
        queues: [Queue { start: 0, count: 0 }; 8],
    }
}

// The board of a new store, which is not sealed.
pub fn new_board(state: State, wishes: WishState) -> Board {
    Board {
        state,
        wishes,
        seal: None,
    }
}

// What every making says first. Where `table` stands depends on the entry.
fn making_at(s: &[u8], at: usize, table: bool) -> Making {
    Making {
        rate: float(word_at(s, at)),
        block: word_at(s, after(at, 4)) as usize,
        budget: budget_of(byte_at(s, after(at, 8)), word_at(s, after(at, 9)) as usize),
        policy: policy_of(byte_at(s, after(at, 13))),
        scope: scope_of(byte_at(s, after(at, 14))),
        table,
    }
}

// The board that was made, or where it was refused the board before. A new store stands in the same tables, whatever its forerunner left
// there.
fn after_making<R: Numbered>(
    out: &mut Output,
    answer: Result<(), R>,
    made: Board,
    board: Board,
) -> Board {
    answer_line(out, b"made\n", answer);
    if answer.is_ok() { made } else { board }
}

// A store without the fade table, with it, or one with keyboards.
fn play_making(out: &mut Output, s: &[u8], at: usize, board: Board) -> Board {
    let from = after(at, 1);
    let sort = byte_at(s, at);
    if sort != 47 {
        let r = make(making_at(s, from, sort == 34));
        return after_making(out, r.answer, new_board(r.state, no_keyboards()), board);
    }
    let table = byte_at(s, after(at, 16)) != 0;
    let keyboards = word_at(s, after(at, 17)) as usize;
    let r = make_console(making_at(s, from, table), keyboards);
    after_making(out, r.answer, new_board(r.state, r.wishes), board)
}

// A slot, whose definition is `def`, a keyboard, whether the spawn is managed, a bus, a pan and a rank.
fn wish_at(s: &[u8], at: usize, def: SynthDef) -> Wish {
    Wish {
        managed: byte_at(s, after(at, 5)) != 0,
        def,
        bus: id_at(s, after(at, 6)),
        pan: float(word_at(s, after(at, 10))),
        rank: word_at(s, after(at, 14)),
    }
}

// The wish `w` at a keyboard.
fn play_wish(
    out: &mut Output,
    keyboard: usize,
    w: Wish,
    board: Board,
    wishes: &mut WishTable,
) -> Board {
    let r = board_wish(board.seal, board.wishes, wishes, keyboard, w);
    answer_line(out, b"waits\n", r.answer);
    Board {
        wishes: r.wishes,
        ..board
    }
}

pub fn play_turn(
    out: &mut Output,
    board: Board,
    nodes: &mut NodeTable,
    edges: &mut EdgeTable,
    voices: &mut VoiceTable,
    steals: &mut StealTable,
    wishes: &WishTable,
) -> Board {
    let r = turn(
        board.state,
        nodes,
        edges,
        voices,
        steals,
        board.wishes,
        wishes,
    );
    match r.answer {
        Some(served) => {
            text(out, b"served");
            and_word(out, served.keyboard);
            text(out, b" ");
            given_line(out, b"voice", served.answer.map(|id| id.0));
        }
        None => text(out, b"empty\n"),
    }
    Board {
        state: r.state,
        wishes: r.wishes,
        ..board
    }
}

// How many wishes wait at each keyboard, and the keyboard after the last served. Asked for by the keyboard's number, as a host asks: the queues
// themselves may count more than wait.
fn waiting_line(out: &mut Output, w: WishState) {
    text(out, b"waiting");
    for q in 0..keyboard_count(w) {
        and_word(out, waiting_count(w, q));
    }
    text(out, b" next");
    and_word(out, w.next);
    end_line(out);
}

// A making, a wish, what waits, or a remark: none of them is lent a table of the store. A wish is for the definition `def`.
pub fn play_console(
    out: &mut Output,
    s: &[u8],
    at: usize,
    def: SynthDef,
    board: Board,
    wishes: &mut WishTable,
) -> Board {
    match byte_at(s, at) {
        48 => {
            let keyboard = word_at(s, after(at, 2)) as usize;
            play_wish(out, keyboard, wish_at(s, after(at, 1), def), board, wishes)
        }
        50 => {
            waiting_line(out, board.wishes);
            board
        }
        53 => {
            remark_line(out, name_at(s, after(at, 1)));
            board
        }
        _ => play_making(out, s, at, board),
    }
}
